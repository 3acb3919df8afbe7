// A case is a line CALL,ROOM,BUFFER,FIRST,TEXT: which call, the lengths of workspace and line buffer, and the texts.
use listed::fields::{ascii, read};
use listed::lines::Unanswered;
use listed::one_line::decode;
use std::alloc::Global;

#[derive(Drop)]
pub enum Call {
    // Two texts in one, of which the first, the module's, has so many bytes.
    Texts(Vec<u8>, usize),
    // One input that holds both.
    Input(Vec<u8>),
}

#[derive(Drop)]
pub struct Case {
    pub call: Call,
    pub room: u32,
    pub buffer: u32,
}

impl Case {
    pub fn read(alloc: Global, line: &[u8]) -> Result<Case, Unanswered> {
        let fields: Vec<&[u8]> = line.splitn(5, |byte| *byte == b',').collect(alloc)?;
        let [call, room, buffer, first, text] = fields.as_slice() else {
            return Err(Unanswered::Unclear);
        };
        let (call, first) = (number(call)?, number(first)?);
        let (room, buffer) = (number(room)?, number(buffer)?);
        Ok(Case {
            call: call_of(call, first, decode(alloc, text)?)?,
            room,
            buffer,
        })
    }
}

// The call of this number, on bytes of which so many are the first text.
fn call_of(call: u32, first: u32, bytes: Vec<u8>) -> Result<Call, Unanswered> {
    let first = first as usize;
    if first > bytes.len() {
        return Err(Unanswered::Unclear);
    }
    match call {
        1 => Ok(Call::Texts(bytes, first)),
        2 => Ok(Call::Input(bytes)),
        _ => Err(Unanswered::Unclear),
    }
}

fn number(field: &[u8]) -> Result<u32, Unanswered> {
    read(ascii(field)?)
}
