// A call as the words of a piece: the text of a table, and the workspace of a fit by its length.
use calls::{Pile, Request};
use labels::NameSet;
use listed::one_line::decode;
use std::alloc::{AllocError, Global};

// Not `commands::parse`: here a fit names its workspace, and hidden names are one number.
pub fn call_of(alloc: Global, piece: &str) -> Result<Option<Request<Vec<u8>>>, AllocError> {
    if let Some(text) = piece.strip_prefix("enter ") {
        return Ok(Some(Request::Enter(decode(alloc, text.as_bytes())?)));
    }
    Ok(short_call(piece))
}

// The words are taken one after another: a vector of them would be made for each call.
fn short_call(piece: &str) -> Option<Request<Vec<u8>>> {
    let mut words = piece.split(' ');
    let call = match words.next()? {
        "seat" => Request::Seat(number(words.next()?)?, number(words.next()?)?),
        "fit" => {
            let seat = number(words.next()?)?;
            let pile = Pile {
                table: number(words.next()?)?,
                helper: helper_of(words.next()?)?,
                hidden: NameSet(words.next()?.parse::<u32>().ok()?),
            };
            Request::Fit(seat, pile, words.next()?.parse::<u32>().ok()? as usize)
        }
        "unfit" => Request::Unfit(number(words.next()?)?),
        "clear" => Request::Clear(number(words.next()?)?),
        _ => return None,
    };
    match words.next() {
        None => Some(call),
        Some(_) => None,
    }
}

// The helper that a word names; `-` is none.
fn helper_of(word: &str) -> Option<Option<u8>> {
    match word {
        "-" => Some(None),
        _ => number(word).map(Some),
    }
}

fn number(word: &str) -> Option<u8> {
    word.parse::<u8>().ok()
}
