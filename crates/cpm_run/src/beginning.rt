//! The digest of what a run begins with, by which a checkpoint says of which run it is.
ghost use Rattle.std.specs.Prelude.{◌≡◌, IfOk, OnOk, map};
ghost use Rattle.cpm_batch.specs.Inputs.{start_view};
ghost use Rattle.cpm_run.specs.Beginning.{IsHasherTold, counted_behind, drives_behind, each_behind, input_behind, key_behind};
ghost use Rattle.cpm_run.specs.Beginning.{keys_behind, number_behind, opening_number, run_beginning, start_behind};
ghost use Rattle.cpm_run.specs.Settled.{settled_view};

use crate::settled::SettledInput;
use cpm_batch::Start;
use cpm_flags::Cpu;
use cpm_geom::Image;
use cpm_script::Key;
use sha2::{Digest, Sha256};
use std::alloc::{AllocError, Global};

/// A digest of what a run begins with, by SHA-256: of its system drive, and of how each session begins, its keys and its steps.
pub type RunBeginning = [u8; 32];

/// Adds a number.
fn add_number(hasher: &mut Sha256, number: u64)
    ensures { IsHasherTold hasher.old hasher.new (λ message. number_behind message number) }
{
    hasher.update(&number.to_le_bytes());
}

/// Adds bytes, behind how many they are.
fn add_bytes(hasher: &mut Sha256, bytes: &[u8])
    ensures { IsHasherTold hasher.old hasher.new (λ message. counted_behind message bytes.now) }
{
    add_number(hasher, bytes.len() as u64);
    hasher.update(bytes);
}

/// Adds a key.
fn add_key(hasher: &mut Sha256, key: &Key)
    ensures { IsHasherTold hasher.old hasher.new (λ message. key_behind message key.now) }
{
    add_number(hasher, key.count);
    hasher.update(&[key.byte]);
}

/// Adds the keys of a session, each with its count.
fn add_keys(hasher: &mut Sha256, keys: &[Key])
    ensures { IsHasherTold hasher.old hasher.new (λ message. keys_behind message keys.now) }
{
    add_number(hasher, keys.len() as u64);
    for key in keys {
        add_key(hasher, key);
    }
}

/// Adds the images of drives.
fn add_drives(hasher: &mut Sha256, drives: &[Image])
    ensures { IsHasherTold hasher.old hasher.new (λ message. drives_behind message drives.now) }
{
    add_number(hasher, drives.len() as u64);
    for drive in drives {
        add_bytes(hasher, drive.bytes());
    }
}

/// The number of a session that is opened.
fn opening_number(cpu: Cpu) -> u64
    ensures { result ≡ opening_number cpu }
{
    match cpu {
        Cpu::I8080 => 0,
        Cpu::Z80 => 1,
    }
}

/// Adds how a session begins.
fn add_start(alloc: Global, hasher: &mut Sha256, start: &Start) -> Result<(), AllocError>
    ensures { OnOk result (IsHasherTold hasher.old hasher.new (λ message. start_behind message (start_view start.now))) }
{
    match start {
        Start::Opened { cpu, quota, drives } => {
            add_number(hasher, opening_number(*cpu));
            add_number(hasher, u64::from(*quota));
            add_drives(hasher, drives.as_slice());
        }
        Start::Forked { parent, at } => {
            add_number(hasher, 2);
            add_number(hasher, *parent as u64);
            add_number(hasher, *at);
        }
        Start::Restored(saved) => {
            let bytes = saved.bytes(alloc)?;
            add_number(hasher, 3);
            add_bytes(hasher, bytes.as_slice());
        }
    }
    Ok(())
}

/// Adds a session.
fn add_input(alloc: Global, hasher: &mut Sha256, input: &SettledInput<'_>) -> Result<(), AllocError>
    ensures { OnOk result (IsHasherTold hasher.old hasher.new (λ message. input_behind message (settled_view input.now))) }
{
    add_bytes(hasher, input.session.name.as_bytes());
    add_start(alloc, hasher, &input.start)?;
    add_keys(hasher, input.keys.as_slice());
    add_number(hasher, input.steps);
    Ok(())
}

/// Adds all sessions.
fn add_inputs(
    alloc: Global,
    hasher: &mut Sha256,
    inputs: &[SettledInput<'_>],
) -> Result<(), AllocError>
    ensures { OnOk result (IsHasherTold hasher.old hasher.new (λ message. each_behind input_behind message (map settled_view inputs.now))) }
{
    for input in inputs {
        add_input(alloc, hasher, input)?;
    }
    Ok(())
}

/// The digest of what a run begins with.
#[tactic(auto, unfolding(crate::specs::Beginning::run_beginning))]
pub(crate) fn beginning_of(
    alloc: Global,
    system: &Image,
    inputs: &[SettledInput<'_>],
) -> Result<RunBeginning, AllocError>
    ensures { IfOk result (λ digest. digest ≡ run_beginning system.now (map settled_view inputs.now)) }
{
    let mut hasher = Sha256::new();
    add_bytes(&mut hasher, system.bytes());
    add_inputs(alloc, &mut hasher, inputs)?;
    Ok(hasher.finalize())
}
