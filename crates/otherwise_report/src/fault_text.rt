//! The text of what is wrong.
ghost use Rattle.std.specs.Prelude.{◌≡◌, ◌++◌, OnOk};
ghost use Rattle.model_jobs.specs.Texts.{number_field};
ghost use Rattle.otherwise_report.specs.FaultTexts.{fault_text, kind_name, wrong_text};

use model_otherwise::{Fault, FaultKind, Tried};
use std::alloc::AllocError;
use text_words::{add_decimal, add_reply};

/// Returns the name of a kind of fault.
pub(crate) fn kind_name(kind: FaultKind) -> &'static [u8]
    ensures { result.now ≡ kind_name kind }
{
    match kind {
        FaultKind::WrongByte => b"wrong byte",
        FaultKind::SharedPlace => b"two objects on one place",
        FaultKind::FreePage => b"live byte on a free page",
        FaultKind::NoPage => b"live byte on no page",
        FaultKind::LostPage => b"lost page",
        FaultKind::ApartGroup => b"group on two spans",
        FaultKind::ProtectedPage => b"page left protected",
    }
}

/// Adds where something is wrong.
pub(crate) fn add_fault(text: &mut Vec<u8>, fault: Fault) -> Result<(), AllocError>
    ensures { OnOk result (text.new.items ≡ text.old.items ++ fault_text fault) }
{
    match fault {
        Fault::Byte(serial, off) => {
            add_number(text, b"object", u64::from(serial))?;
            add_number(text, b" byte", u64::from(off))
        }
        Fault::Page(page) => add_number(text, b"physical page", u64::from(page)),
        Fault::Group(group) => add_number(text, b"group", u64::from(group)),
        Fault::VirtualPage(page) => add_number(text, b"virtual page", u64::from(page)),
    }
}

/// Adds what is wrong with an answer, beside the answer.
pub(crate) fn add_wrong(text: &mut Vec<u8>, tried: &Tried) -> Result<(), AllocError>
    ensures { OnOk result (text.new.items ≡ text.old.items ++ wrong_text tried.now) }
{
    match tried {
        Tried::Answered(_) | Tried::Begun | Tried::Ended(_) | Tried::Held | Tried::Waits => Ok(()),
        Tried::NoPage => text.extend_from_slice(b": a crash"),
        Tried::Wrong(_, wanted) => {
            text.extend_from_slice(b", not ")?;
            add_reply(text, wanted)
        }
        Tried::Overlaps(_) => text.extend_from_slice(b", where a live object is"),
        Tried::GroupGone(_) => text.extend_from_slice(b": its slot stays occupied"),
    }
}

/// Adds a word followed by a number.
pub(crate) fn add_number(text: &mut Vec<u8>, word: &[u8], number: u64) -> Result<(), AllocError>
    ensures { OnOk result (text.new.items ≡ text.old.items ++ word.now ++ number_field number) }
{
    text.extend_from_slice(word)?;
    text.push(b' ')?;
    add_decimal(text, number)
}
