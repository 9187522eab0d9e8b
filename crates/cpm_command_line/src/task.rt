//! What a command line asks for.

use crate::usage::Page;
use cpm_flags::Cpu;

/// A subcommand with its words.
#[derive(Drop)]
pub enum Task<'a> {
    /// `com ..`: run a program.
    Com(PlayTask<'a>),
    /// `boot ..`: start CP/M at its prompt.
    Boot(PlayTask<'a>),
    /// `asm SOURCE OUT [--list FILE]`: assemble SOURCE, and write its image to OUT. `list` is the file that
    /// a listing is written to.
    Asm {
        source: &'a str,
        out: &'a str,
        list: Option<&'a str>,
    },
    /// `list FILE [--z80]`: list the program in FILE as instructions of that processor.
    List {
        file: &'a str,
        cpu: Cpu,
    },
    /// `check IMAGE`: tell whether the directory of the drive in IMAGE agrees with itself.
    Check {
        image: &'a str,
    },
    /// `run ..`: run the sessions of a configuration.
    Run(RunTask<'a>),
    /// `debug ..`: run a program, or go on with a saved machine, as lines of standard input say.
    Debug(DebugTask<'a>),
    /// `saved FILE`: tell what the machine is that is saved in FILE.
    Saved {
        file: &'a str,
    },
    /// `serve ..`: serve requests, a line each, on standard input.
    Serve(ServeTask<'a>),
    /// `disk ..`: make an image of a disk, or do something with the files in one.
    Disk(DiskTask<'a>),
    /// `help ..`, `-h` or `--help`: print this page of the help.
    Help(Page),
}

/// A machine that is played: by `com` with a program, or by `boot` from the prompt of CP/M; or by either from
/// where it was saved.
///
/// `com FILE [TAIL..] [--z80] [--steps N] [--keys SCRIPT] [--disk IMAGE].. [--out-disk IMAGE]..
/// [--keyboard] [--record SCRIPT] [--progress] [--stop-idle] [--raw] [--quiet] [--partial] [--status]
/// [--replay RECORDING] [--pace N] [--system IMAGE] [--out-folder FOLDER].. [--list FILE] [--save FILE]`: run
/// the program in FILE.
///
/// `boot [PLACE..] [--z80] [--steps N] [--keys SCRIPT] [--out-disk IMAGE].. [--keyboard]
/// [--record SCRIPT] [--progress] [--stop-idle] [--raw] [--quiet] [--partial] [--status]
/// [--replay RECORDING] [--pace N] [--system IMAGE] [--out-folder FOLDER].. [--list FILE] [--save FILE]`: start
/// CP/M with these drives.
///
/// `com --from FILE` and `boot --from FILE`, with the same options but for `--z80` and `--disk`: go on with
/// the machine that is saved in FILE.
#[derive(Drop)]
pub struct PlayTask<'a> {
    /// The file that the program is in. There is one for `com` without `from`, and else none.
    pub file: Option<&'a str>,
    /// The words after the program's name: none where there is no program.
    pub tail: Vec<&'a str>,
    /// The processor that it runs on. With `from` it is the 8080 here, and that of the saved machine counts.
    pub cpu: Cpu,
    /// How many steps it makes at most, where that was given.
    pub steps: Option<u64>,
    /// The file of a key script, whose keys are pressed. Not with `replay`.
    pub keys: Option<&'a str>,
    /// The images of the drives from A on, of which there are four at most, and none with `from`. A folder
    /// stands for a drive with its files.
    pub drives: Vec<&'a str>,
    /// The files that these drives, or those of the saved machine, are written to: four at most.
    pub outs: Vec<&'a str>,
    /// The keys of standard input are taken as they are typed, after those of a script or a recording. For
    /// `boot` they are also where it has neither.
    pub is_live: bool,
    /// The script that the keys are written to, where it is live, or has a script or a recording.
    pub record: Option<&'a str>,
    /// It is told how much of the steps is done. Not where it is live.
    pub has_progress: bool,
    /// It ends where the program waits for a key and no key will come.
    pub stops_idle: bool,
    /// The control bytes of the program go to a terminal as they are.
    pub is_raw: bool,
    /// The last line, which says how the program ended, is left out.
    pub is_quiet: bool,
    /// What `outs` and `out_folders` name is written also where the program was cut off by its limit of steps. Only with one of these.
    pub is_partial: bool,
    /// The exit status is that of the program's end.
    pub has_status: bool,
    /// The file of a recording, whose keys are pressed, without a limit of keys. Not with `keys`.
    pub replay: Option<&'a str>,
    /// How many thousands of steps pass in a second at most, from 1 on, where that was given.
    pub pace: Option<u64>,
    /// The image of the system drive, where one was given.
    pub system: Option<&'a str>,
    /// The folders that the files of these drives are written to, where they are new or changed: four at most.
    pub out_folders: Vec<&'a str>,
    /// The file for what the machine prints, if it is kept.
    pub list: Option<&'a str>,
    /// The file that the machine is saved to at the end, if it is.
    pub save: Option<&'a str>,
    /// The file of a saved machine that it goes on from, in place of a program, a processor and drives.
    pub from: Option<&'a str>,
}

/// `run CONFIG [--keyboard NAME] [--record SCRIPT] [--progress] [--stop-idle] [--record-all FOLDER] [--raw]
/// [--within FOLDER].. [--outputs-here] [--pace N] [--replay NAME=FILE].. [--checkpoint N]`: run the sessions
/// of the configuration in CONFIG.
#[derive(Drop)]
pub struct RunTask<'a> {
    /// The file of the configuration.
    pub config: &'a str,
    /// The session that gets the keys of standard input.
    pub keyboard: Option<&'a str>,
    /// The script that these keys are written to. Only with `keyboard`.
    pub record: Option<&'a str>,
    /// It is told how much of the steps is done. Not with `keyboard`.
    pub has_progress: bool,
    /// A session ends where it waits for a key and no key of its script will come.
    pub stops_idle: bool,
    /// The folder that the keys of each session are written to, as a script NAME.keys.
    pub scripts: Option<&'a str>,
    /// The control bytes of a program go to a terminal as they are.
    pub is_raw: bool,
    /// The folders that the files of the configuration may lie in: all where there is none.
    pub folders: Vec<&'a str>,
    /// The names of outputs are plain names of files in the current folder.
    pub has_outputs_here: bool,
    /// How many thousands of steps pass in a second at most, from 1 on, where that was given. Only with `keyboard`.
    pub pace: Option<u64>,
    /// The recordings whose keys are pressed in place of the scripts of sessions, each as NAME=FILE.
    pub replays: Vec<&'a str>,
    /// After how many steps where the sessions stand is kept, again and again, from 1 on, where that was given.
    pub checkpoint: Option<u64>,
}

/// A machine that is debugged: one that begins a program, or one that was saved.
///
/// `debug FILE [--z80] [--list FILE]`: the program in FILE on that processor.
///
/// `debug --from FILE [--list FILE] [--system IMAGE]`: the machine that is saved in FILE.
#[derive(Drop)]
pub struct DebugTask<'a> {
    /// The file that the program is in. There is one without `from`, and else none.
    pub file: Option<&'a str>,
    /// The processor that it runs on. With `from` it is the 8080 here, and that of the saved machine counts.
    pub cpu: Cpu,
    /// The file of a listing as `asm` writes it, which is read, where one was given.
    pub list: Option<&'a str>,
    /// The file of a saved machine, in place of a program and a processor.
    pub from: Option<&'a str>,
    /// The image of the system drive of that machine, where one was given. Only with `from`.
    pub system: Option<&'a str>,
}

/// A host that is served lines.
///
/// `serve [--system IMAGE] [--frames N] [--folder FOLDER] [--journal FILE | --resume FILE [--compact]]`
#[derive(Drop)]
pub struct ServeTask<'a> {
    /// The image of the system drive, where one was given.
    pub system: Option<&'a str>,
    /// How many frames its sessions share, 16 to 16,384, where that was given.
    pub frames: Option<u64>,
    /// The folder that its files are in, where one was given.
    pub folder: Option<&'a str>,
    /// The file that what changes the host is kept in, as a new journal, if it is.
    pub journal: Option<&'a str>,
    /// The file of a journal that is done again and gone on with, in place of a new one.
    pub resume: Option<&'a str>,
    /// A journal of savings is put in the place of that one first. Only with `resume`.
    pub is_compact: bool,
}

/// A command of `disk` with its words. The files are those of `user`, from 0 to 15.
#[derive(Drop)]
pub enum DiskTask<'a> {
    /// `disk new IMAGE [--large]`: make the image of a blank disk, of the large format with `--large`.
    New {
        image: &'a str,
        is_large: bool,
    },
    /// `disk list IMAGE [--user N]`: list the files, of all users where none is given.
    List {
        image: &'a str,
        user: Option<u8>,
    },
    /// `disk put IMAGE FILE.. [--user N] [--text] [--read-only] [--system]`: copy the files of the
    /// host, of which there is one at least, into the image. Each word of `files` is FILE or
    /// FILE=NAME.TYP.
    Put {
        image: &'a str,
        files: Vec<&'a str>,
        user: u8,
        is_text: bool,
        is_read_only: bool,
        is_system: bool,
    },
    /// `disk get IMAGE NAME.TYP.. [--user N] [--text] [--to PATH] [--force] [--dry-run]`: copy the files
    /// with these names, of which there is one at least, out of the image. Files that are there are
    /// replaced where it is forced. A dry run only tells the files.
    Get {
        image: &'a str,
        names: Vec<&'a str>,
        user: u8,
        is_text: bool,
        to: Option<&'a str>,
        is_forced: bool,
        is_dry: bool,
    },
    /// `disk remove IMAGE NAME.TYP.. [--user N]`: erase the files with these names, of which there is
    /// one at least.
    Remove {
        image: &'a str,
        names: Vec<&'a str>,
        user: u8,
    },
    /// `disk rename IMAGE NEW=OLD [--user N]`: give a file another name. `change` is NEW=OLD.
    Rename {
        image: &'a str,
        change: &'a str,
        user: u8,
    },
}
