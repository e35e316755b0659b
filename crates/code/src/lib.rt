// An answer in numbers: the number of a refusal, its place, and for C all that an answer tells in one number.
#![tactic(auto)]

ghost use Rattle.std.specs.Prelude.{◌+◌, ◌*◌, ◌%◌, ◌<◌, ◌≡◌};
ghost use Rattle.paper.specs.Told.{told};
ghost use Rattle.answer_bounds.specs.Bounds.{Small};
ghost use Rattle.code.specs.Codes.{number_told, place_told, high, code_of, cut_code};

use paper::{Answer, Refusal};

// 2^32, by which a refusal's number is multiplied.
const HIGH: u64 = 4294967296;

// The number of a refusal.
pub fn number_of(answer: Answer) -> usize
    ensures { result ≡ number_told (told answer) }
{
    let Err(why) = answer else {
        return 0;
    };
    match why {
        Refusal::TooLong => 1,
        Refusal::BadName(_) => 2,
        Refusal::NoQuery(_) => 3,
        Refusal::TooDeep(_) => 4,
        Refusal::UnknownName(_) => 5,
        Refusal::BadQuery(_) => 6,
        Refusal::BadTable(_) => 7,
        Refusal::BadMarks(_) => 8,
        Refusal::TooNested(_) => 9,
        Refusal::Short(_) => 10,
        Refusal::NoXml(_) => 11,
        Refusal::LeftOut(_) => 12,
        Refusal::NoElement => 13,
        Refusal::OtherText => 14,
        Refusal::NoRole(_) => 15,
        Refusal::NoView(_) => 16,
        Refusal::UnreadView(_) => 17,
        Refusal::Unreadable => 18,
    }
}

// The place of a refusal.
pub fn place_of(answer: Answer) -> usize
    ensures { result ≡ place_told (told answer) }
{
    let Err(why) = answer else {
        return 0;
    };
    match why {
        Refusal::TooLong | Refusal::NoElement | Refusal::OtherText | Refusal::Unreadable => 0,
        Refusal::BadName(place)
        | Refusal::NoQuery(place)
        | Refusal::TooDeep(place)
        | Refusal::UnknownName(place)
        | Refusal::BadQuery(place)
        | Refusal::BadTable(place)
        | Refusal::BadMarks(place)
        | Refusal::TooNested(place)
        | Refusal::Short(place)
        | Refusal::NoXml(place)
        | Refusal::LeftOut(place)
        | Refusal::NoRole(place)
        | Refusal::NoView(place)
        | Refusal::UnreadView(place) => place,
    }
}

// A refusal in one number.
fn refused(number: u64, place: usize) -> u64
    requires { number < high }
    ensures { (place < high → result ≡ number * high + place) × (result ≡ number * high + place % high) }
{
    number * HIGH + place as u64 % HIGH
}

// An answer in one number; of a place beyond 2^32 the lowest 32 bits.
pub fn code(answer: Answer) -> u64
    ensures { (Small (told answer) → result ≡ code_of (told answer)) × (result ≡ cut_code (told answer)) }
{
    match answer {
        Ok(value) => value as u64,
        Err(_) => refused(number_of(answer) as u64, place_of(answer)),
    }
}
