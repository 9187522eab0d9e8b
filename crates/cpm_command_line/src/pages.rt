//! The texts of the help's pages.
ghost use Rattle.std.specs.Prelude.{◌≡◌, Some};
ghost use Rattle.cpm_command_line.specs.HelpWords.{line_of_page, joined_by_spaces, text_of_page};
ghost use Rattle.cpm_command_line.specs.Line.{asked_page};

use crate::boot_page::BOOT_PAGE;
use crate::disk_pages::{
    DISK_GET_PAGE, DISK_LIST_PAGE, DISK_NEW_PAGE, DISK_PAGE, DISK_PUT_PAGE, DISK_REMOVE_PAGE,
    DISK_RENAME_PAGE,
};
use crate::serve_page::SERVE_PAGE;
use crate::usage::Page;

/// What `cpmhost --help` prints.
pub const OVERVIEW_PAGE: &str = "\
cpmhost runs CP/M 2.2 programs for the 8080 and the Z80 processor.

Usage: cpmhost COMMAND [WORDS..] [OPTIONS..]

Commands:
  run         run the sessions of a configuration by turns
  com         run a CP/M program, such as a .COM file
  boot        start CP/M at its prompt, with images and folders as drives
  asm         assemble 8080 source to a program
  list        list a program as instructions
  check       check the directory in the image of a drive
  debug       run a program step by step, as lines of standard input say
  saved       tell what the machine is that was saved in a file
  serve       serve sessions to another program, a request and a reply a line
  disk        make the image of a disk, or work with the files in one

'cpmhost help COMMAND', or 'cpmhost COMMAND --help', prints the page of a
command: what it does, its options and examples. 'cpmhost help disk put' prints
the page of a command of disk, 'cpmhost help status' the exit statuses, and
'cpmhost --version' the version.

A file whose name begins with '-' is given as './NAME'.
";

/// The page of `com`.
pub const COM_PAGE: &str = "\
Usage: cpmhost com FILE [TAIL..] [--z80] [--steps N] [--keys SCRIPT]
       [--disk IMAGE].. [--out-disk IMAGE].. [--keyboard] [--record SCRIPT]
       [--progress] [--stop-idle] [--raw] [--quiet] [--partial] [--status]
       [--replay RECORDING] [--pace N] [--system IMAGE]
       [--out-folder FOLDER].. [--list FILE] [--save FILE]
       cpmhost com --from FILE [OPTIONS..]

Run the CP/M program in FILE, such as a .COM file, with the words TAIL..
after its name on the command line of CP/M, and print what it writes to its
console. After '--' these words may begin with '-'.

Options:
  --z80       run it on the Z80; it is the 8080 unless this is given
  --steps N   stop after N steps. N is a number from 0 to 18446744073709551615.
              A step is an instruction, or a part of a system call. Without
              --steps there is a limit of 1,000,000 steps from the last key on
              that comes by its count, but none with --keyboard, --out-disk,
              --out-folder, --list, --save or --record
  --keys SCRIPT
              press the keys of SCRIPT. A line of it is empty, a comment that
              begins with '#', or says when keys come: 'N KEYS' after N steps,
              'wait KEYS' where the program waits for a key, and 'expect \"TEXT\"
              KEYS' where it does and has shown TEXT. '^M' is Return, '^C' is
              Control and C, '^?' is Rubout, '^~' a caret, the others themselves
  --replay RECORDING
              press the keys of RECORDING, a file that --record wrote: a script
              of lines 'N KEYS', without a limit of keys. It doesn't go with
              --keys
  --disk IMAGE
              the image of the disk in drive A; given again, of those in B, C
              and D; a blank disk is in A where none is given. In place of an
              image a folder may stand, whose files are copied to a disk in
              memory
  --system IMAGE
              the image of the disk in the system drive P, which no program can
              write; a blank disk is in P unless this is given
  --out-disk IMAGE
              write the disk in drive A, as the program left it, to this file;
              given again, those in B, C and D; where the limit of --steps cut
              the program off while it computed, nothing is written without
              --partial, and it ends with HO10, status 10
  --out-folder FOLDER
              write the files of the disk in drive A that are new or changed to
              this folder; given again, those in B, C and D
  --list FILE
              write what is sent to the printer to FILE
  --save FILE
              write the machine, as it is at the end, to FILE: its registers,
              memory, drives, and the keys that wait. --from goes on with it.
              The disks that --out-disk names are written all the same
  --from FILE
              go on with the machine that --save wrote to FILE, in place of a
              program, a processor and drives. The system drive must be the
              same. --steps and the counts of keys begin at 0 where it was
              saved
  --partial   write what --out-disk and --out-folder name also where the program
              was cut off by its limit of steps
  --keyboard  take the keys from standard input as they are typed; '^]', Control
              and ], ends it. The keys of --keys or --replay come before these.
              It doesn't go with --progress
  --record SCRIPT
              write the keys that come by --keyboard, --keys or --replay to the
              file SCRIPT, which --replay takes; one of these must be given
  --progress  report on standard error how much of the steps is done
  --pace N    let N thousand steps pass in a second at most; N is a number from
              1 to 18446744073709551615. An 8080 of 2 MHz did 300 to 500
  --stop-idle
              end where the program waits for a key and no key will come
  --raw       send control bytes of the program to a terminal as they are;
              without it they are shown as ^[ and the like
  --quiet     leave out the last line, which says how the program ended
  --status    end with the exit status of the program's end: 0 for Exited and
              Halted, 11 for Running, 12 for Illegal, 13 for Quota and 14 for
              CountEnd
  -h, --help  print this page

Examples:
  cpmhost com life.com --steps 50000000 > life.txt
  cpmhost com pip.com --disk work.img --out-disk work.img b.txt=a.txt
  cpmhost com turbo.com --z80 --disk turbo.img --keyboard --record turbo.keys

The last line on standard error says how it ended, after how many steps, and
where its program counter then stood, as in 'end Exited count 7 pc E406':
  Exited    the program returned to the system
  Halted    it executed HLT
  Illegal   it came to an opcode that the processor does not have
  Running   its steps or the typing ended, or it waited under --stop-idle
  CountEnd  its count of steps can't rise any more

With --stop-idle it has 'waiting' where the program waited for a key. Its last
word is 'quit', 'input-end' or 'signal' where typing ended it.
The line before 'end Illegal' has the bytes that it came to.
";

/// The page of `asm`.
pub const ASM_PAGE: &str = "\
Usage: cpmhost asm SOURCE OUT [--list FILE]

Assemble the 8080 source in SOURCE, and write the program, which begins at
0100h, to the file OUT.

Options:
  --list FILE
              write a listing of the source to FILE
  -h, --help  print this page

Examples:
  cpmhost asm hello.asm hello.com
  cpmhost asm hello.asm hello.com --list hello.lst
";

/// The page of `list`.
pub const LIST_PAGE: &str = "\
Usage: cpmhost list FILE [--z80]

List the program in FILE as instructions.

Options:
  --z80       list it as instructions of the Z80; they are those of the 8080
              unless this is given
  -h, --help  print this page

Examples:
  cpmhost list hello.com
";

/// The page of `check`.
pub const CHECK_PAGE: &str = "\
Usage: cpmhost check IMAGE

Print 'ok' if the directory in the image IMAGE of a drive is in order: each
block in it can be a file's and stands there once, and no two entries are of the
same part of one file. Else report the first entry that is wrong.

Options:
  -h, --help  print this page

Examples:
  cpmhost check work.img
";

/// The page of `run`.
pub const RUN_PAGE: &str = "\
Usage: cpmhost run CONFIG [--keyboard NAME] [--record SCRIPT] [--progress]
       [--stop-idle] [--record-all FOLDER] [--raw] [--within FOLDER]..
       [--outputs-here] [--pace N] [--replay NAME=FILE].. [--checkpoint N]

Run the sessions of the configuration in CONFIG by turns, write their files,
and print how each session ended.

Options:
  --keyboard NAME
              take the keys of the session NAME from standard input, as for com.
              It doesn't go with --progress
  --record SCRIPT
              write the keys of --keyboard to the file SCRIPT, as for com
  --progress  report on standard error how much of the steps is done
  --stop-idle
              end a session where it waits for a key and no key will come
  --record-all FOLDER
              write the keys of each session NAME to the script NAME.keys in
              the folder FOLDER
  --raw       send control bytes of the program to a terminal as they are;
              without it they are shown as ^[ and the like
  --within FOLDER
              refuse files of the configuration that are not in this folder,
              after links; given again, in one of these
  --outputs-here
              refuse outputs whose names are not plain names of files in the
              current folder
  --pace N    let N thousand steps pass in a second at most while one types; N
              is a number from 1 to 18446744073709551615. An 8080 of 2 MHz did
              300 to 500
  --replay NAME=FILE
              press the keys of the recording FILE in the session NAME, in place
              of its script; given again, in other sessions
  --checkpoint N
              keep where the sessions stand every N steps in CONFIG.checkpoint,
              from which the same command goes on if it was ended; N is a
              number from 1 to 18446744073709551615
  -h, --help  print this page

Examples:
  cpmhost run lab.toml
  cpmhost run lab.toml --keyboard ann --record ann.keys
  cpmhost run lab.toml --within lab --outputs-here

A line on standard output says for each session its name, how it ended, after
how many steps, and how many bytes its console got. With --stop-idle it has
'waiting' then where the session waited for a key. The last word of a session
of --keyboard is 'quit', 'input-end' or 'signal' where typing ended it. The ends
are those that 'cpmhost help com' lists, but for Exited, and one more:
  Quota     its next step might have written more pages than its quota
";

/// The page of `debug`.
pub const DEBUG_PAGE: &str = "\
Usage: cpmhost debug FILE [--z80] [--list FILE]
       cpmhost debug --from FILE [--list FILE] [--system IMAGE]

Run the program in FILE, or the machine that was saved in FILE, as the lines of
standard input say.

Options:
  --z80       run it on the Z80; it is the 8080 unless this is given
  --list FILE
              read a listing of the program, as asm writes it, from FILE
  --from FILE
              go on with the machine that com or boot wrote to FILE by --save,
              with its registers, memory, drives, keys and count of steps, in
              place of a program. Nothing is written to FILE
  --system IMAGE
              the image of the disk in the system drive of that machine, which
              must be the same; a blank disk unless this is given
  -h, --help  print this page

Examples:
  cpmhost debug hello.com --list hello.lst
  cpmhost debug --from turbo.sav

Lines that debug reads, where HHHH is an address of four hexadecimal digits:
  S N         make N steps
  G HHHH N    make N steps, but stop before an instruction at HHHH
  D HHHH      show 16 bytes of the memory
  L HHHH      show an instruction
  R           show the registers
  K KEYS      press keys, written as in a key script
  O           show what the console got
  Q           end
";

/// The page of `saved`.
pub const SAVED_PAGE: &str = "\
Usage: cpmhost saved FILE

Tell what the machine is that --save wrote to FILE: the version of its format,
its processor, how many steps it has executed, how it ended or that it runs and
whether it waits for a key, its registers, how many pages it has written and may
write, the digest of its system drive, and its drives with their files.

Options:
  -h, --help  print this page

Examples:
  cpmhost saved turbo.sav
";

/// The page of exit statuses.
pub const STATUS_PAGE: &str = "\
Exit status:
  0   nothing was refused, however the program or the sessions ended; with
      --status its end was Exited or Halted
  1   the command line is wrong, or a name on it: of a session that isn't in
      the configuration or is forked, or one that no file of CP/M can have
  2   the configuration is wrong; nothing is written
  3   a line of a key script is wrong; nothing is written
  4   a file can't be read, has more than 16 MiB (16,777,216 bytes), or lies
      outside of --within
  5   standard output or a file can't be written, or isn't to be: two files are
      one, another command holds it, it changed meanwhile, it is there already,
      or it lies outside of --within or --outputs-here
  6   the image of a disk is wrong, or for check and disk its directory; or what
      was asked of disk can't be done; nothing is written
  7   SOURCE has a fault, which is named with its line; OUT isn't touched
  8   out of memory
  9   the program in FILE has more than 58,112 bytes, or the quotas of all
      sessions exceed the frames of the configuration
  10  a program was cut off by its limit of steps, so that its drives were not
      written, nor files of theirs, nor what it sent to the printer
  11  with --status: the program still runs, its end was Running
  12  with --status: its end was Illegal
  13  with --status: its end was Quota
  14  with --status: its end was CountEnd

The launcher has two more: 70 where this machine can't run the program, and 71
where 'cpmhost --version --check' finds another program than the released one.
";

/// The text of a page.
pub fn page_text(page: Page) -> &'static str
    ensures { result.now ≡ text_of_page page }
{
    match page {
        Page::Overview => OVERVIEW_PAGE,
        Page::Com => COM_PAGE,
        Page::Boot => BOOT_PAGE,
        Page::Asm => ASM_PAGE,
        Page::List => LIST_PAGE,
        Page::Check => CHECK_PAGE,
        Page::Run => RUN_PAGE,
        Page::Debug => DEBUG_PAGE,
        Page::Serve => SERVE_PAGE,
        Page::Saved => SAVED_PAGE,
        Page::Disk => DISK_PAGE,
        Page::DiskNew => DISK_NEW_PAGE,
        Page::DiskList => DISK_LIST_PAGE,
        Page::DiskPut => DISK_PUT_PAGE,
        Page::DiskGet => DISK_GET_PAGE,
        Page::DiskRemove => DISK_REMOVE_PAGE,
        Page::DiskRename => DISK_RENAME_PAGE,
        Page::Status => STATUS_PAGE,
    }
}

/// The command line that prints a page.
pub fn page_line(page: Page) -> &'static str
    ensures line { result.now ≡ joined_by_spaces (line_of_page page) }
    ensures asks { asked_page (line_of_page page) ≡ Some page }
{
    match page {
        Page::Overview => "cpmhost --help",
        Page::Com => "cpmhost help com",
        Page::Boot => "cpmhost help boot",
        Page::Asm => "cpmhost help asm",
        Page::List => "cpmhost help list",
        Page::Check => "cpmhost help check",
        Page::Run => "cpmhost help run",
        Page::Debug => "cpmhost help debug",
        Page::Serve => "cpmhost help serve",
        Page::Saved => "cpmhost help saved",
        Page::Disk => "cpmhost help disk",
        Page::DiskNew => "cpmhost help disk new",
        Page::DiskList => "cpmhost help disk list",
        Page::DiskPut => "cpmhost help disk put",
        Page::DiskGet => "cpmhost help disk get",
        Page::DiskRemove => "cpmhost help disk remove",
        Page::DiskRename => "cpmhost help disk rename",
        Page::Status => "cpmhost help status",
    }
}
