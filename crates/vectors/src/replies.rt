// 01's table of replies: the number, the second word and the name of each refusal.
use crate::case::{number_of, word_of};
use reply::Refusal;

// The refusals in the order of the table.
fn refusal_at(place: u32) -> Refusal {
    match place {
        0 => Refusal::BadSheet,
        1 => Refusal::BadRequest,
        2 => Refusal::BeyondLimit,
        3 => Refusal::ExtensionNotFound,
        4 => Refusal::WrongExtensionType,
        5 => Refusal::ExtensionIsNotMessage,
        6 => Refusal::MessageNotFound,
        7 => Refusal::MessageFoundMoreThanOnce,
        8 => Refusal::UnknownFieldName,
        9 => Refusal::BuiltinOptionNotFound,
        10 => Refusal::BuiltinOptionPointsToNonSingularField,
        11 => Refusal::MessageFieldRequiresMessageConstant,
        12 => Refusal::UnsupportedExtensionType,
        13 => Refusal::UnknownEnumValue,
        14 => Refusal::ValueRange,
        15 => Refusal::StrLitDecodeError,
        16 => Refusal::RangeEnd,
        17 => Refusal::NoRoom,
        18 => Refusal::BadBytes,
        _ => Refusal::WireMismatch,
    }
}

// Whether a refusal has this row, a number and a second word, writes nothing, and is named so by these two.
pub fn is_row(place: &[u8], want: &[u8], name: &[u8]) -> bool {
    let a = reply::refused(refusal_at(word_of(place)));
    let row = a.reply as u64 * 0x1_0000_0000 + a.second as u64;
    let named = reply::name_of(a.reply, a.second) == name;
    (row == number_of(want)) & (a.absent == 0) & (a.length == 0) & named
}
