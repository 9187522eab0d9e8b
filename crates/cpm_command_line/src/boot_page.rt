//! The text of the page of `boot`.

/// The page of `boot`.
pub const BOOT_PAGE: &str = "\
Usage: cpmhost boot [PLACE..] [--z80] [--steps N] [--keys SCRIPT]
       [--out-disk IMAGE].. [--keyboard] [--record SCRIPT] [--progress]
       [--stop-idle] [--raw] [--quiet] [--partial] [--status]
       [--replay RECORDING] [--pace N] [--system IMAGE]
       [--out-folder FOLDER].. [--list FILE] [--save FILE] [--from FILE]

Start CP/M at its prompt A>. The first PLACE is in drive A, and further ones are
in B, C and D. A PLACE is the image of a disk, or a folder, whose files are
copied to a disk in memory. Files with names that CP/M can't have are left out,
and told on standard error. Without a PLACE a blank disk is in A.

Options:
  --system IMAGE
              the image of the disk in the system drive P, which no program can
              write; a blank disk is in P unless this is given
  --z80       run on the Z80; it is the 8080 unless this is given
  --steps N   stop after N steps. N is a number from 0 to 18446744073709551615.
              A step is an instruction, or a part of a system call. Without
              --steps there is a limit with --keys or --replay, of 1,000,000
              steps from the last key on that comes by its count, but none with
              --keyboard, --out-disk, --out-folder, --list, --save or --record
  --keys SCRIPT
              press the keys of SCRIPT, which is written as for com
  --replay RECORDING
              press the keys of RECORDING, a file that --record wrote. It
              doesn't go with --keys
  --keyboard  take the keys from standard input as they are typed, after those
              of --keys or --replay. They are typed also where neither of these
              is given; '^]', Control and ], ends it
  --record SCRIPT
              write the keys that come to the file SCRIPT, which --replay takes
  --out-disk IMAGE
              write the disk in drive A, as it is at the end, to this file;
              given again, those in B, C and D; where the limit of --steps cut
              CP/M off while it computed, nothing is written without --partial,
              and it ends with HO10, status 10. The files of a folder stay as
              they are
  --out-folder FOLDER
              write the files of the disk in drive A that are new or changed to
              this folder; given again, those in B, C and D. FOLDER may be the
              PLACE itself. Files that were erased stay there, and so do those
              of users other than 0, which are told
  --list FILE
              write what is sent to the printer to FILE
  --save FILE
              write the machine, as it is at the end, to FILE: its registers,
              memory, drives, and the keys that wait. --from goes on with it.
              The disks that --out-disk names are written all the same
  --from FILE
              go on with the machine that --save wrote to FILE, in place of a
              program, a processor and drives. The system drive must be the
              same. --steps and the counts of keys begin at 0 where it was
              saved
  --partial   write what --out-disk and --out-folder name also where CP/M was
              cut off by its limit of steps
  --progress  report on standard error how much of the steps is done. It goes
              only with --keys or --replay, and not with --keyboard
  --pace N    let N thousand steps pass in a second at most; N is a number from
              1 to 18446744073709551615. An 8080 of 2 MHz did 300 to 500
  --stop-idle
              end where CP/M waits for a key and no key will come
  --raw       send control bytes of a program to a terminal as they are;
              without it they are shown as ^[ and the like
  --quiet     leave out the last line, which says how it ended
  --status    end with the exit status of the end: 0 for Halted, 11 for Running,
              12 for Illegal, 13 for Quota and 14 for CountEnd
  -h, --help  print this page

Examples:
  cpmhost boot
  cpmhost boot work.img games --system tools.img
  cpmhost boot games --out-folder games
  cpmhost boot work.img --keys build.keys --out-disk work.img --stop-idle

The last line on standard error says how it ended, as for com; the ends are
those that 'cpmhost help com' lists, but for Exited.
";
