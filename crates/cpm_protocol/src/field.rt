//! The fields of a request.
ghost use Rattle.std.specs.Prelude.{◌≡◌};
ghost use Rattle.cpm_protocol.specs.Fields.{request_field_name};

/// A field of a request.
#[derive(Clone, Copy, Drop)]
pub enum RequestField {
    Do,
    Tag,
    Slot,
    Cpu,
    Quota,
    Drives,
    From,
    Keys,
    Steps,
    Until,
    To,
    Most,
    Address,
    Length,
    File,
    Out,
    Drive,
    Name,
    Text,
    Requests,
}

impl RequestField {
    /// The field's name in the line.
    pub fn name(self) -> &'static str
        ensures { result.now ≡ request_field_name self }
    {
        match self {
            RequestField::Do => "do",
            RequestField::Tag => "tag",
            RequestField::Slot => "slot",
            RequestField::Cpu => "cpu",
            RequestField::Quota => "quota",
            RequestField::Drives => "drives",
            RequestField::From => "from",
            RequestField::Keys => "keys",
            RequestField::Steps => "steps",
            RequestField::Until => "until",
            RequestField::To => "to",
            RequestField::Most => "most",
            RequestField::Address => "address",
            RequestField::Length => "length",
            RequestField::File => "file",
            RequestField::Out => "out",
            RequestField::Drive => "drive",
            RequestField::Name => "name",
            RequestField::Text => "text",
            RequestField::Requests => "requests",
        }
    }
}
