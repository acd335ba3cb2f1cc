//! Why an element of a trace is no item.

ghost use Rattle.std.specs.Prelude.{◌≡◌};
ghost use Rattle.jepsen_form.specs.Code.{form_fault_code};

use thiserror::Error;

/// A field of an event, of an edit or of a question. `Moment` is the one of `:index` and `:time`
/// that was chosen.
#[derive(Clone, Copy, Debug)]
pub enum FormField {
    Process,
    Stage,
    Action,
    Value,
    Moment,
    Edit,
    Of,
    Begin,
    End,
    Ask,
    /// The `:register` of a claim.
    Register,
    /// The `:kind` of a claim.
    Claimed,
}

/// The first fault of an element, in the order in which its fields are read.
#[derive(Clone, Copy, Debug, Error)]
pub enum FormFault {
    /// The element is no map.
    #[error("F1 NotAMap")]
    NotAMap,
    /// A field that is needed is missing.
    #[error("F2 MissingField")]
    MissingField(FormField),
    /// A field that is read is there more than once.
    #[error("F3 DuplicateField")]
    DuplicateField(FormField),
    /// The `:type`, the `:edit` or the `:kind` is not one of the known words.
    #[error("F4 BadType")]
    BadType,
    /// The `:f` is neither `:read` nor `:write`.
    #[error("F5 UnsupportedF")]
    UnsupportedF,
    /// The `:value` is neither `nil` nor an integer of 64 bits, or the `:of` is no such integer from 0 on.
    #[error("F6 BadValue")]
    BadValue,
    /// A moment is no integer of 64 bits from 0 on.
    #[error("F7 BadMoment")]
    BadMoment,
    /// The tower has no register for the `:value`, the `:ask` or the `:register`.
    #[error("F8 NoRegister")]
    NoRegister,
}

impl FormFault {
    /// The code that users see: F1 to F8.
    pub fn code(&self) -> &'static str
        ensures { result.now ≡ form_fault_code self.now }
    {
        match self {
            FormFault::NotAMap => "F1",
            FormFault::MissingField(_) => "F2",
            FormFault::DuplicateField(_) => "F3",
            FormFault::BadType => "F4",
            FormFault::UnsupportedF => "F5",
            FormFault::BadValue => "F6",
            FormFault::BadMoment => "F7",
            FormFault::NoRegister => "F8",
        }
    }
}
