//! The calls by their numbers.

ghost use Rattle.std.specs.Prelude.{◌≡◌};
ghost use Rattle.cpm_bdos.specs.Function.{function_of, bios_call_of};

use cpm_drives::FileFunction;

/// A function of the BDOS, called with its number in C.
#[derive(Clone, Copy, Debug, PartialEq, Eq)]
pub enum Function {
    WarmBoot,
    ReadKey,
    WriteByte,
    ReaderInput,
    PunchOutput,
    ListOutput,
    DirectConsole,
    GetIoByte,
    SetIoByte,
    WriteText,
    ReadLine,
    ConsoleStatus,
    Version,
    ResetDisks,
    SelectDisk,
    /// A function on a file control block.
    File(FileFunction),
    LoginVector,
    CurrentDisk,
    SetBuffer,
    AllocationVector,
    ProtectDisk,
    ReadOnlyVector,
    DiskParameters,
    UserCode,
    ResetDrives,
    /// Any number without a function of its own.
    Other,
}

impl Function {
    /// The function of a number.
    #[tactic(auto, unfolding(crate::specs::Function::function_of))]
    pub fn of(number: u8) -> Function
        ensures { result ≡ function_of number }
    {
        match number {
            0 => Function::WarmBoot,
            1 => Function::ReadKey,
            2 => Function::WriteByte,
            3 => Function::ReaderInput,
            4 => Function::PunchOutput,
            5 => Function::ListOutput,
            6 => Function::DirectConsole,
            7 => Function::GetIoByte,
            8 => Function::SetIoByte,
            9 => Function::WriteText,
            10 => Function::ReadLine,
            11 => Function::ConsoleStatus,
            12 => Function::Version,
            13 => Function::ResetDisks,
            14 => Function::SelectDisk,
            15 => Function::File(FileFunction::OpenFile),
            16 => Function::File(FileFunction::CloseFile),
            17 => Function::File(FileFunction::SearchFirst),
            18 => Function::File(FileFunction::SearchNext),
            19 => Function::File(FileFunction::EraseFiles),
            20 => Function::File(FileFunction::ReadNext),
            21 => Function::File(FileFunction::WriteNext),
            22 => Function::File(FileFunction::MakeFile),
            23 => Function::File(FileFunction::RenameFiles),
            24 => Function::LoginVector,
            25 => Function::CurrentDisk,
            26 => Function::SetBuffer,
            27 => Function::AllocationVector,
            28 => Function::ProtectDisk,
            29 => Function::ReadOnlyVector,
            30 => Function::File(FileFunction::SetAttributes),
            31 => Function::DiskParameters,
            32 => Function::UserCode,
            33 => Function::File(FileFunction::ReadRandom),
            34 => Function::File(FileFunction::WriteRandom),
            35 => Function::File(FileFunction::ComputeSize),
            36 => Function::File(FileFunction::SetRandomRecord),
            37 => Function::ResetDrives,
            40 => Function::File(FileFunction::WriteRandomCleared),
            _ => Function::Other,
        }
    }
}

/// A call of the BIOS, by its place in the table of jumps.
#[derive(Clone, Copy, Debug, PartialEq, Eq)]
pub enum BiosCall {
    Boot,
    WarmBoot,
    ConsoleStatus,
    ConsoleInput,
    ConsoleOutput,
    List,
    Punch,
    Reader,
    Home,
    SelectDrive,
    SetTrack,
    SetSector,
    SetSectorBuffer,
    ReadSector,
    WriteSector,
    ListStatus,
    Translate,
    /// Any number without a call of its own.
    Other,
}

impl BiosCall {
    /// The call of a number.
    #[tactic(auto, unfolding(crate::specs::Function::bios_call_of))]
    pub fn of(number: u8) -> BiosCall
        ensures { result ≡ bios_call_of number }
    {
        match number {
            0 => BiosCall::Boot,
            1 => BiosCall::WarmBoot,
            2 => BiosCall::ConsoleStatus,
            3 => BiosCall::ConsoleInput,
            4 => BiosCall::ConsoleOutput,
            5 => BiosCall::List,
            6 => BiosCall::Punch,
            7 => BiosCall::Reader,
            8 => BiosCall::Home,
            9 => BiosCall::SelectDrive,
            10 => BiosCall::SetTrack,
            11 => BiosCall::SetSector,
            12 => BiosCall::SetSectorBuffer,
            13 => BiosCall::ReadSector,
            14 => BiosCall::WriteSector,
            15 => BiosCall::ListStatus,
            16 => BiosCall::Translate,
            _ => BiosCall::Other,
        }
    }
}
