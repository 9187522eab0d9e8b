//! Requests, as a line has them.
use cpm_flags::Cpu;
use serde_json::Value;

/// What comes back with the reply to a request.
#[derive(Clone, Copy, Drop)]
pub enum Tag<'a> {
    Number(u64),
    Text(&'a str),
}

/// The names for the drives A to D: one for the first, and no more than there are.
#[derive(Clone, Copy, Drop)]
pub struct DriveNames<'a> {
    pub a: Option<&'a str>,
    pub b: Option<&'a str>,
    pub c: Option<&'a str>,
    pub d: Option<&'a str>,
}

/// How far a grant goes at most.
#[derive(Clone, Copy, Drop)]
pub enum GrantGoal {
    /// To the end of its steps.
    Steps,
    /// To a step that begins in the program at this address.
    Address(u16),
    /// To a step that waits for a key.
    Wait,
}

/// A request. Its texts of bytes have no character above U+00FF.
#[derive(Clone, Copy, Drop)]
pub enum WireRequest<'a> {
    /// Open a session.
    Open {
        cpu: Cpu,
        quota: u16,
        drives: DriveNames<'a>,
    },
    /// Open a session that goes on from a saving.
    Resume {
        from: &'a str,
    },
    /// Press keys.
    Key {
        slot: u64,
        keys: &'a str,
    },
    /// Execute steps.
    Grant {
        slot: u64,
        steps: u64,
        goal: GrantGoal,
    },
    /// Give console bytes.
    Take {
        slot: u64,
        most: u16,
    },
    /// Give list bytes.
    List {
        slot: u64,
        most: u16,
    },
    /// Say what is seen of the session.
    Look {
        slot: u64,
    },
    /// Give bytes of the memory.
    Peek {
        slot: u64,
        address: u16,
        length: u16,
    },
    /// Fork the session.
    Fork {
        slot: u64,
    },
    /// Save the session as a file.
    Save {
        slot: u64,
        file: &'a str,
    },
    /// Close the session, and write its drives.
    Close {
        slot: u64,
        out: DriveNames<'a>,
    },
    /// Press keys, grant steps to a wait, give console and list bytes, and say what is seen.
    Turn {
        slot: u64,
        keys: &'a str,
        steps: u64,
    },
    /// Write a file on a drive that no session has.
    Put {
        drive: &'a str,
        name: &'a str,
        text: &'a str,
    },
    /// Read a file of a drive that no session has.
    Get {
        drive: &'a str,
        name: &'a str,
    },
    /// List the files of a drive that no session has.
    Files {
        drive: &'a str,
    },
}

/// What a line asks.
#[derive(Clone, Copy, Drop)]
pub enum LineRequest<'a> {
    One(WireRequest<'a>),
    /// Requests that are read and done one after another, 1 to 1,000.
    Many(&'a [Value]),
}
