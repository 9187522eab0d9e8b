//! Requests that need files, over a folder in memory.

ghost use Rattle.std.specs.Prelude.{⊤};

use crate::same::same;
use cpm_geom::{Format, Image};
use cpm_serve::{Folder, FolderError, Server};
use cpm_slots::{Host, SlotId};
use cpm_store::{MemoryStore, Output, Store};
use serde_json::Value;
use std::alloc::Global;
use std::process::Abort;

/// Files in memory, of which one access can be refused.
#[derive(Drop)]
struct MemoryFolder {
    store: MemoryStore,
    /// How many accesses are done before one is refused, where one is to be.
    left: Option<u64>,
    error: FolderError,
}

impl MemoryFolder {
    /// Refuses an access so, after so many that are done.
    fn refuse(&mut self, after: u64, error: FolderError) {
        self.left = Some(after);
        self.error = error;
    }

    /// Counts an access, and says why it is refused, if it is.
    fn refusal(&mut self) -> Option<FolderError> {
        match self.left {
            Some(0) => {
                self.left = None;
                Some(self.error)
            }
            Some(left) => {
                self.left = Some(left - 1);
                None
            }
            None => None,
        }
    }
}

impl Folder for MemoryFolder {
    ghost does = { λ s a t. ⊤ };

    fn read(&mut self, alloc: Global, name: &str) -> Result<Vec<u8>, FolderError> {
        if let Some(error) = self.refusal() {
            return Err(error);
        }
        let Some(bytes) = self.store.file(name) else {
            return Err(FolderError::Absent);
        };
        match Vec::from_slice(alloc, bytes) {
            Ok(bytes) => Ok(bytes),
            Err(_) => Err(FolderError::OutOfMemory),
        }
    }

    fn hold(&mut self, alloc: Global, name: &str) -> Result<Vec<u8>, FolderError> {
        self.read(alloc, name)
    }

    fn write(&mut self, files: &[Output<'_>]) -> Result<(), FolderError> {
        if let Some(error) = self.refusal() {
            return Err(error);
        }
        for file in files {
            if self.store.write(file.name, &file.bytes).is_err() {
                return Err(FolderError::Fault);
            }
        }
        Ok(())
    }

    fn release(&mut self) {}

    fn keep(&mut self, _alloc: Global, _request: &Value) -> Result<(), FolderError> {
        Ok(())
    }

    fn keep_closed(&mut self, _alloc: Global, _slot: u64) -> Result<(), FolderError> {
        Ok(())
    }

    fn keep_opened(
        &mut self,
        _alloc: Global,
        _host: &mut Host,
        _slot: SlotId,
    ) -> Result<(), FolderError> {
        Ok(())
    }
}

/// A host with 128 frames behind its wire, and a folder with a blank disk and a file that is none.
#[derive(Drop)]
struct FolderScene {
    alloc: Global,
    server: Server,
    folder: MemoryFolder,
}

/// The scene.
fn scene(rt: &impl Abort, alloc: Global) -> FolderScene {
    let system = Image::blank(alloc, Format::Ibm3740).expect(rt, "memory");
    let Ok(host) = Host::new(alloc, system, 128) else {
        panic!(rt; "memory");
    };
    let disk = Image::blank(alloc, Format::Ibm3740).expect(rt, "memory");
    let mut store = MemoryStore::new(alloc);
    same(rt, store.write("work.img", disk.bytes()).is_ok(), true);
    same(rt, store.write("none.img", b"no disk").is_ok(), true);
    FolderScene {
        alloc,
        server: Server { host },
        folder: MemoryFolder {
            store,
            left: None,
            error: FolderError::Fault,
        },
    }
}

/// The reply to a line.
fn reply(rt: &impl Abort, scene: &mut FolderScene, line: &str) -> String {
    scene
        .server
        .serve(scene.alloc, &mut scene.folder, line.as_bytes())
        .expect(rt, "memory")
}

/// Fails unless a line has this reply.
fn replies(rt: &impl Abort, scene: &mut FolderScene, line: &str, wanted: &str) {
    let found = reply(rt, scene, line);
    same(rt, found.as_str(), wanted);
}

/// Fails unless the reply to a line begins so.
fn begins(rt: &impl Abort, scene: &mut FolderScene, line: &str, begins: &str) {
    let found = reply(rt, scene, line);
    same(rt, found.as_str().starts_with(begins), true);
}

/// Fails unless a line whose access is refused, after so many that are done, is refused so.
fn refuses(rt: &impl Abort, scene: &mut FolderScene, after: u64, error: FolderError, line: &str) {
    scene.folder.refuse(after, error);
    let wanted = match error {
        FolderError::Absent => ABSENT,
        FolderError::Busy => BUSY,
        FolderError::Fault => FAULT,
        FolderError::OutOfMemory => MEMORY,
    };
    replies(rt, scene, line, wanted);
    same(rt, scene.folder.left.is_none(), true);
}

/// The replies of refusals.
const ABSENT: &str = r#"{"refused":"AbsentFile","why":"the folder has no such file"}"#;

const BUSY: &str = r#"{"refused":"BusyFile","why":"another command has the file"}"#;

const FAULT: &str = r#"{"refused":"FileFault","why":"the file can't be read or written"}"#;

const MEMORY: &str = r#"{"refused":"OutOfMemory","why":"out of memory"}"#;

const DAMAGED: &str = r#"{"refused":"DamagedDisk","why":"the file is no image of a sound disk"}"#;

const BAD_DRIVES: &str =
    r#"{"refused":"BadDrives","why":"the session has no drive, or more than 4"}"#;

const NO_SUCH_SLOT: &str = r#"{"refused":"NoSuchSlot","why":"no slot of that number is open"}"#;

/// A line that opens a session with the disk of the folder and a blank one.
const OPENS: &str =
    r#"{"do": "open", "cpu": "8080", "quota": 16, "drives": ["work.img", "blank"]}"#;

/// A line that puts a file on the disk.
const PUTS: &str =
    r#"{"do": "put", "drive": "work.img", "name": "hello.txt", "text": "Hello\r\n"}"#;

#[test]
fn sessions_are_opened_with_images(rt: HostRuntime) {
    let alloc = rt.alloc();
    let mut scene = scene(&rt, alloc);
    replies(&rt, &mut scene, OPENS, r#"{"slot":0}"#);
    replies(
        &rt,
        &mut scene,
        r#"{"do": "open", "cpu": "8080", "quota": 16, "drives": ["work.img", "gone.img"]}"#,
        ABSENT,
    );
    replies(
        &rt,
        &mut scene,
        r#"{"do": "open", "cpu": "8080", "quota": 16, "drives": ["work.img", "none.img"]}"#,
        DAMAGED,
    );
    for error in [
        FolderError::Absent,
        FolderError::Busy,
        FolderError::Fault,
        FolderError::OutOfMemory,
    ] {
        refuses(&rt, &mut scene, 0, error, OPENS);
    }
    refuses(
        &rt,
        &mut scene,
        1,
        FolderError::Busy,
        r#"{"do": "open", "cpu": "8080", "quota": 16, "drives": ["work.img", "blank", "work.img"]}"#,
    );
    replies(&rt, &mut scene, OPENS, r#"{"slot":1}"#);
}

#[test]
fn a_fault_that_needs_no_file_comes_first(rt: HostRuntime) {
    let alloc = rt.alloc();
    let mut scene = scene(&rt, alloc);
    scene.folder.refuse(0, FolderError::Fault);
    replies(
        &rt,
        &mut scene,
        r#"{"do": "open", "cpu": "8080", "quota": 15, "drives": ["work.img"]}"#,
        r#"{"refused":"BadQuota","why":"the quota is not 16 to 256 pages"}"#,
    );
    replies(
        &rt,
        &mut scene,
        r#"{"do": "open", "cpu": "8080", "quota": 256, "drives": ["work.img"]}"#,
        r#"{"refused":"NoFrames","why":"the quotas of all open slots exceed the frames"}"#,
    );
    replies(
        &rt,
        &mut scene,
        r#"{"do": "save", "slot": 0, "file": "alice.saved"}"#,
        NO_SUCH_SLOT,
    );
    replies(
        &rt,
        &mut scene,
        r#"{"do": "get", "drive": "work.img", "name": "no*name"}"#,
        r#"{"refused":"BadName","why":"no file of a disk has such a name"}"#,
    );
    same(&rt, scene.folder.left, Some(0));
}

#[test]
fn sessions_are_saved_and_go_on(rt: HostRuntime) {
    let alloc = rt.alloc();
    let mut scene = scene(&rt, alloc);
    let saves = r#"{"do": "save", "slot": 0, "file": "alice.saved"}"#;
    let resumes = r#"{"do": "open", "from": "alice.saved"}"#;
    replies(&rt, &mut scene, OPENS, r#"{"slot":0}"#);
    replies(&rt, &mut scene, resumes, ABSENT);
    refuses(&rt, &mut scene, 0, FolderError::Busy, saves);
    refuses(&rt, &mut scene, 0, FolderError::Fault, saves);
    begins(&rt, &mut scene, saves, r#"{"bytes":"#);
    refuses(&rt, &mut scene, 0, FolderError::Fault, resumes);
    replies(&rt, &mut scene, resumes, r#"{"slot":1}"#);
    replies(
        &rt,
        &mut scene,
        r#"{"do": "open", "from": "none.img"}"#,
        r#"{"refused":"Damaged","why":"the bytes are no saving"}"#,
    );
}

#[test]
fn drives_are_written_where_a_session_is_closed(rt: HostRuntime) {
    let alloc = rt.alloc();
    let mut scene = scene(&rt, alloc);
    let closes = r#"{"do": "close", "slot": 0, "out": ["after.img"]}"#;
    replies(&rt, &mut scene, OPENS, r#"{"slot":0}"#);
    replies(
        &rt,
        &mut scene,
        r#"{"do": "close", "slot": 0, "out": ["a.img", "b.img", "c.img"]}"#,
        BAD_DRIVES,
    );
    replies(
        &rt,
        &mut scene,
        r#"{"do": "close", "slot": 0, "out": ["a.img", "a.img"]}"#,
        BAD_DRIVES,
    );
    refuses(&rt, &mut scene, 0, FolderError::Busy, closes);
    refuses(&rt, &mut scene, 0, FolderError::Fault, closes);
    refuses(&rt, &mut scene, 0, FolderError::OutOfMemory, closes);
    same(&rt, scene.folder.store.file("after.img").is_none(), true);
    begins(&rt, &mut scene, closes, r#"{"af":2,"#);
    same(
        &rt,
        scene.folder.store.file("after.img"),
        scene.folder.store.file("work.img"),
    );
    replies(&rt, &mut scene, closes, NO_SUCH_SLOT);
}

#[test]
fn files_are_put_on_drives(rt: HostRuntime) {
    let alloc = rt.alloc();
    let mut scene = scene(&rt, alloc);
    let gets = r#"{"do": "get", "drive": "work.img", "name": "HELLO.TXT"}"#;
    let lists = r#"{"do": "files", "drive": "work.img"}"#;
    replies(&rt, &mut scene, lists, r#"{"text":""}"#);
    replies(
        &rt,
        &mut scene,
        gets,
        r#"{"refused":"NoFile","why":"no such file"}"#,
    );
    refuses(&rt, &mut scene, 0, FolderError::Busy, PUTS);
    refuses(&rt, &mut scene, 1, FolderError::Fault, PUTS);
    replies(&rt, &mut scene, lists, r#"{"text":""}"#);
    replies(&rt, &mut scene, PUTS, r#"{"bytes":7}"#);
    replies(&rt, &mut scene, lists, r#"{"text":"HELLO.TXT\n"}"#);
    begins(&rt, &mut scene, gets, r#"{"text":"Hello\r\n\u001a\u001a"#);
    refuses(&rt, &mut scene, 0, FolderError::Fault, gets);
    refuses(&rt, &mut scene, 0, FolderError::Absent, lists);
    replies(
        &rt,
        &mut scene,
        r#"{"do": "files", "drive": "none.img"}"#,
        DAMAGED,
    );
    replies(
        &rt,
        &mut scene,
        r#"{"do": "put", "drive": "work.img", "name": "a.b.c", "text": ""}"#,
        r#"{"refused":"BadName","why":"no file of a disk has such a name"}"#,
    );
}
