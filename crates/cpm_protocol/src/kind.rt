//! Which requests there are.
ghost use Rattle.std.specs.Prelude.{◌≡◌};
ghost use Rattle.cpm_protocol.specs.Fields.{fields_of_kind, kind_named};

use crate::field::RequestField;

/// What is asked, without its fields.
#[derive(Clone, Copy, Drop)]
pub enum RequestKind {
    Open,
    /// `open` with `from`: a session goes on from a saving.
    Resume,
    Key,
    Grant,
    Take,
    List,
    Look,
    Peek,
    Fork,
    Save,
    Close,
    Turn,
    Put,
    Get,
    Files,
}

impl RequestKind {
    /// The request that `do` names.
    pub fn named(name: &str) -> Option<RequestKind>
        ensures { result ≡ kind_named name.now }
    {
        match name {
            "open" => Some(RequestKind::Open),
            "key" => Some(RequestKind::Key),
            "grant" => Some(RequestKind::Grant),
            "take" => Some(RequestKind::Take),
            "list" => Some(RequestKind::List),
            "look" => Some(RequestKind::Look),
            "peek" => Some(RequestKind::Peek),
            "fork" => Some(RequestKind::Fork),
            "save" => Some(RequestKind::Save),
            "close" => Some(RequestKind::Close),
            "turn" => Some(RequestKind::Turn),
            "put" => Some(RequestKind::Put),
            "get" => Some(RequestKind::Get),
            "files" => Some(RequestKind::Files),
            _ => None,
        }
    }

    /// The fields that the request may have beside `do` and `tag`.
    pub fn fields(self) -> &'static [RequestField]
        ensures { result.now ≡ fields_of_kind self }
    {
        match self {
            RequestKind::Open => &[RequestField::Cpu, RequestField::Quota, RequestField::Drives],
            RequestKind::Resume => &[RequestField::From],
            RequestKind::Key => &[RequestField::Slot, RequestField::Keys],
            RequestKind::Grant => &[
                RequestField::Slot,
                RequestField::Steps,
                RequestField::Until,
                RequestField::To,
            ],
            RequestKind::Take | RequestKind::List => &[RequestField::Slot, RequestField::Most],
            RequestKind::Look | RequestKind::Fork => &[RequestField::Slot],
            RequestKind::Peek => &[
                RequestField::Slot,
                RequestField::Address,
                RequestField::Length,
            ],
            RequestKind::Save => &[RequestField::Slot, RequestField::File],
            RequestKind::Close => &[RequestField::Slot, RequestField::Out],
            RequestKind::Turn => &[RequestField::Slot, RequestField::Keys, RequestField::Steps],
            RequestKind::Put => &[RequestField::Drive, RequestField::Name, RequestField::Text],
            RequestKind::Get => &[RequestField::Drive, RequestField::Name],
            RequestKind::Files => &[RequestField::Drive],
        }
    }
}
