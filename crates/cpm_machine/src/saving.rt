//! Machines that are saved as bytes, and machines of bytes.

ghost use Rattle.std.specs.Prelude.{◌≡◌, ◌<◌, ◌≤◌, IfOk, IfErr, OnOk, List, ℕ, Ok};
ghost use Rattle.cpm_decode.specs.Cache.{IsRightFor};
ghost use Rattle.cpm_memory.specs.Contents.{Contents};
ghost use Rattle.cpm_bdos.specs.declared.session.Session.{Session};
ghost use Rattle.cpm_memory.specs.Flat.{flat_contents};
ghost use Rattle.cpm_saved.specs.Layout.{Among, Below};
ghost use Rattle.cpm_saved.specs.Reading.{IsPartAppended, IsPartRead};
ghost use Rattle.cpm_saved.specs.declared.part.SavingPart.TheVariants as part;
ghost use Rattle.cpm_machine.specs.MachineState.{MachineState};
ghost use Rattle.cpm_machine.specs.Runner.{IsRunnerSound, state_of};
ghost use Rattle.cpm_machine.specs.Step.{is_running};
ghost use Rattle.cpm_machine.specs.Saving.{IsSavable, IsUnrestored, end_number, can_count, can_write, checked, end_of_number, head_fields};
ghost use Rattle.cpm_machine.specs.Saving.{head_layout, is_magic, is_version};
ghost use Rattle.cpm_machine.specs.SavingParts.{saving_of_parts};
ghost use Rattle.cpm_machine.specs.Saving.{magic, numbers_fields, numbers_layout, processor_number, processor_of_number, restored, bytes_of_saving};
ghost use Rattle.cpm_machine.specs.Saving.{saving_with, saving_fields, saving_layout, version};

use crate::digest::SystemDigest;
use crate::opening::MOST_DRIVES;
use crate::reply::End;
use crate::steps::Runner;
use cpm_bdos::Session;
use cpm_decode::DecodeCache;
use cpm_drives::EntryRooms;
use cpm_flags::Cpu;
use cpm_memory::{FlatMemory, Memory};
use cpm_saved::{
    Reader, RestoreError, SavingPart, append_array, append_byte, append_flag, append_long,
    append_memory, append_session, append_word, read_memory, read_session, session_is_fit,
};
use std::alloc::{AllocError, Global};

/// What every saving begins with: `cpmhost`, and a byte that ends a text.
const MAGIC: [u8; 8] = [0x63, 0x70, 0x6d, 0x68, 0x6f, 0x73, 0x74, 0x1a];

/// The number of the format.
pub const VERSION: u8 = 1;

/// Where the count of steps stands in a saving.
const COUNT_PLACE: usize = 45;

/// Where the memory begins in a saving.
const MEMORY_PLACE: usize = 54;

/// What a machine has beside its memory and its session.
#[derive(Drop)]
struct Numbers {
    cpu: Cpu,
    with_program: bool,
    quota: u16,
    count: u64,
    ended: End,
}

/// The number of a processor in a saving.
fn processor_number(cpu: Cpu) -> u8
    ensures { result ≡ processor_number cpu }
{
    match cpu {
        Cpu::I8080 => 0,
        Cpu::Z80 => 1,
    }
}

/// The number of an end in a saving.
fn end_number(ended: End) -> u8
    ensures { result ≡ end_number ended }
{
    match ended {
        End::Running => 0,
        End::Halted => 1,
        End::Illegal => 2,
        End::Quota => 3,
        End::CountEnd => 4,
        End::Exited => 5,
    }
}

/// Appends what is before the machine: the magic, the number of the format, and the digest of the system drive.
fn append_head(out: &mut Vec<u8>, digest: &SystemDigest) -> Result<(), AllocError>
    ensures { OnOk result (IsPartAppended head_layout (head_fields digest.now) out.old.items out.new.items) }
{
    append_array(out, &MAGIC)?;
    append_array(out, &[VERSION])?;
    append_array(out, digest)?;
    Ok(())
}

/// Appends what a machine has beside its memory and its session.
fn append_numbers(out: &mut Vec<u8>, runner: &Runner) -> Result<(), AllocError>
    requires { runner.now.quota ≤ 256 }
    ensures { OnOk result (IsPartAppended numbers_layout
        (numbers_fields runner.now.cpu runner.now.with_program runner.now.quota runner.now.count runner.now.ended) out.old.items out.new.items) }
{
    append_byte(out, processor_number(runner.cpu))?;
    append_flag(out, runner.with_program)?;
    append_word(out, runner.quota)?;
    append_long(out, runner.count)?;
    append_byte(out, end_number(runner.ended))?;
    Ok(())
}

/// Appends a machine with the digest of its system drive.
fn append_saving(
    out: &mut Vec<u8>,
    digest: &SystemDigest,
    runner: &Runner,
    memory: &FlatMemory,
) -> Result<(), AllocError>
    requires { IsRunnerSound (state_of runner.now (flat_contents memory.now)) }
    ensures appended { OnOk result (IsPartAppended saving_layout
        (saving_fields (saving_with digest.now (state_of runner.now (flat_contents memory.now)))) out.old.items out.new.items) }
    ensures fits { IfOk result (λ _. IsSavable (state_of runner.now (flat_contents memory.now))) }
{
    memory.unwritten_is_blank();
    let _ = memory.touched();
    append_head(out, digest)?;
    append_numbers(out, runner)?;
    append_memory(out, memory)?;
    append_session(out, &runner.session)?;
    Ok(())
}

/// The bytes of a machine with the digest of its system drive; refused if out of memory.
pub fn save(
    alloc: Global,
    digest: &SystemDigest,
    runner: &Runner,
    memory: &FlatMemory,
) -> Result<Vec<u8>, AllocError>
    requires { IsRunnerSound (state_of runner.now (flat_contents memory.now)) }
    ensures saved { IfOk result (λ bytes. bytes.items ≡ bytes_of_saving (saving_with digest.now (state_of runner.now (flat_contents memory.now)))) }
    ensures restores { IfOk result (λ bytes. restored bytes.items ≡ Ok (saving_with digest.now (state_of runner.now (flat_contents memory.now)))) }
{
    let mut bytes = Vec::new(alloc);
    append_saving(&mut bytes, digest, runner, memory)?;
    Ok(bytes)
}

/// Reads bytes that must be these.
fn read_magic(reader: &mut Reader<'_>) -> Result<(), RestoreError>
    ensures { IsPartRead (Among part.Magic 8 is_magic) (λ _. magic) reader.old reader.new result }
{
    let at = reader.at();
    let bytes: [u8; 8] = reader.array(SavingPart::Magic)?;
    if bytes == MAGIC {
        Ok(())
    } else {
        Reader::damaged(SavingPart::Magic, at)
    }
}

/// Reads the number of the format, which must be this one's.
fn read_version(reader: &mut Reader<'_>) -> Result<(), RestoreError>
    ensures { IsPartRead (Among part.Version 1 is_version) (λ _. version) reader.old reader.new result }
{
    let at = reader.at();
    let bytes: [u8; 1] = reader.array(SavingPart::Version)?;
    if bytes == [VERSION] {
        Ok(())
    } else {
        Reader::damaged(SavingPart::Version, at)
    }
}

/// Reads what is before the machine, and gives the digest of the system drive.
fn read_head(reader: &mut Reader<'_>) -> Result<SystemDigest, RestoreError>
    ensures { IsPartRead head_layout head_fields reader.old reader.new result }
{
    read_magic(reader)?;
    read_version(reader)?;
    reader.array(SavingPart::SystemDigest)
}

/// The processor of a number in a saving.
fn processor_of_number(number: u8) -> Cpu
    ensures { result ≡ processor_of_number number }
{
    if number == 0 { Cpu::I8080 } else { Cpu::Z80 }
}

/// The end of a number in a saving.
fn end_of_number(number: u8) -> End
    ensures { result ≡ end_of_number number }
{
    match number {
        0 => End::Running,
        1 => End::Halted,
        2 => End::Illegal,
        3 => End::Quota,
        4 => End::CountEnd,
        _ => End::Exited,
    }
}

/// Reads a processor.
fn read_processor(reader: &mut Reader<'_>) -> Result<Cpu, RestoreError>
    ensures { IsPartRead (Below part.Processor 2) processor_number reader.old reader.new result }
{
    let number = reader.byte_below(SavingPart::Processor, 2)?;
    Ok(processor_of_number(number))
}

/// Reads an end.
fn read_end(reader: &mut Reader<'_>) -> Result<End, RestoreError>
    ensures { IsPartRead (Below part.End 6) end_number reader.old reader.new result }
{
    let number = reader.byte_below(SavingPart::End, 6)?;
    Ok(end_of_number(number))
}

/// Reads what a machine has beside its memory and its session.
fn read_numbers(reader: &mut Reader<'_>) -> Result<Numbers, RestoreError>
    ensures read { IsPartRead numbers_layout (λ n. numbers_fields n.cpu n.with_program n.quota n.count n.ended) reader.old reader.new result }
    ensures quota { IfOk result (λ n. n.quota ≤ 256) }
{
    Ok(Numbers {
        cpu: read_processor(reader)?,
        with_program: reader.flag(SavingPart::Program)?,
        quota: reader.word_within(SavingPart::Quota, 0, 256)?,
        count: reader.long(SavingPart::Count)?,
        ended: read_end(reader)?,
    })
}

/// Whether a machine of this end runs.
fn is_running(ended: End) -> bool
    ensures { result ≡ is_running ended }
{
    ended == End::Running
}

/// Whether a machine that runs has a count that can grow.
fn can_count(runs: bool, count: u64) -> bool
    ensures value { result ≡ can_count runs count }
    ensures fits { count < 18446744073709551616 }
{
    !(runs && count == u64::MAX)
}

/// Whether no more pages are written than may be, and a machine that runs has room for one more step.
fn can_write(runs: bool, pages: u16, quota: u16) -> bool
    ensures { result ≡ can_write runs pages quota }
{
    pages <= quota && (!runs || quota == 256 || u32::from(pages) + 8 <= u32::from(quota))
}

/// What is read of a saving, before it is known to be that of a machine.
#[derive(Drop)]
struct Parts {
    digest: SystemDigest,
    numbers: Numbers,
    memory: FlatMemory,
    session: Session,
}

/// Reads the parts of a saving. It is refused if out of memory too.
fn read_parts(alloc: Global, reader: &mut Reader<'_>) -> Result<Parts, RestoreError>
    ensures read { IsPartRead saving_layout (λ p. saving_fields (saving_of_parts p)) reader.old reader.new result }
    ensures quota { IfOk result (λ p. p.numbers.quota ≤ 256) }
{
    Ok(Parts {
        digest: read_head(reader)?,
        numbers: read_numbers(reader)?,
        memory: read_memory(alloc, reader)?,
        session: read_session(alloc, reader)?,
    })
}

/// A session with these numbers. It keeps the entries of its drives from now on. Refused if out of memory.
fn runner_of(alloc: Global, numbers: Numbers, session: Session) -> Result<Runner, AllocError>
    ensures state { IfOk result (λ runner. (memory : Contents) → state_of runner memory ≡ record {
      cpu = numbers.cpu;
      session = session;
      memory = memory;
      quota = numbers.quota;
      count = numbers.count;
      ended = numbers.ended;
      with_program = numbers.with_program;
    }) }
    ensures right { IfOk result (λ runner. (memory : Contents) (stamps : List ℕ) → IsRightFor memory stamps runner.cache) }
{
    let cache = DecodeCache::new(alloc)?;
    let rooms = EntryRooms::new(alloc, MOST_DRIVES)?;
    let Numbers {
        cpu,
        with_program,
        quota,
        count,
        ended,
    } = numbers;
    let mut session = session;
    session.disks.keep_entries(rooms);
    Ok(Runner {
        cpu,
        session,
        quota,
        count,
        ended,
        with_program,
        cache,
    })
}

/// The machine of these parts, unless no machine can have them; refused if out of memory too.
fn machine_of(
    alloc: Global,
    parts: Parts,
) -> Result<(SystemDigest, Runner, FlatMemory), RestoreError>
    requires { parts.numbers.quota ≤ 256 }
    ensures read { IfOk result (λ r. checked (saving_of_parts parts) ≡ Ok (saving_with r.0 (state_of r.1 (flat_contents r.2)))) }
    ensures refused { IfErr result (λ fault. IsUnrestored (checked (saving_of_parts parts)) fault) }
    ensures sound { IfOk result (λ r. IsRunnerSound (state_of r.1 (flat_contents r.2))) }
    ensures right { IfOk result (λ r. (memory : Contents) (stamps : List ℕ) → IsRightFor memory stamps r.1.cache) }
{
    let Parts {
        digest,
        numbers,
        mut memory,
        session,
    } = parts;
    let runs = is_running(numbers.ended);
    if !can_count(runs, numbers.count) {
        return Reader::damaged(SavingPart::Count, COUNT_PLACE);
    }
    if !can_write(runs, memory.touched(), numbers.quota) {
        return Reader::damaged(SavingPart::Page, MEMORY_PLACE);
    }
    memory.limit_to(numbers.quota);
    let runner = runner_of(alloc, numbers, session)?;
    Ok((digest, runner, memory))
}

/// A machine of the bytes of a saving, with the digest of its system drive. It is refused with the part that makes the bytes no saving, and
/// the place where that begins; then if out of memory.
pub fn restored(
    alloc: Global,
    bytes: &[u8],
) -> Result<(SystemDigest, Runner, FlatMemory), RestoreError>
    ensures read { IfOk result (λ r. restored bytes.now ≡ Ok (saving_with r.0 (state_of r.1 (flat_contents r.2)))) }
    ensures refused { IfErr result (λ fault. IsUnrestored (restored bytes.now) fault) }
    ensures sound { IfOk result (λ r. IsRunnerSound (state_of r.1 (flat_contents r.2))) }
    ensures right { IfOk result (λ r. (memory : Contents) (stamps : List ℕ) → IsRightFor memory stamps r.1.cache) }
{
    let mut reader = Reader::new(bytes);
    let parts = read_parts(alloc, &mut reader)?;
    session_is_fit(&parts.session);
    parts.memory.unwritten_is_blank();
    if !reader.is_at_end() {
        return Reader::damaged(SavingPart::Rest, reader.at());
    }
    machine_of(alloc, parts)
}
