// Responses in words.
ghost use Rattle.std.specs.Prelude.{◌≡◌, ◌++◌, string_bytes, IfOk, OnOk};
ghost use Rattle.inspect.specs.Words.{blocks_in, code_words, response_words};

use crate::listed::Listed;
use packet::values::{BlockSet, Code, Response};
use std::alloc::{AllocError, Global};

// The blocks of a set.
fn blocks_in(heap: Global, set: BlockSet) -> Result<Vec<u8>, AllocError>
    ensures { IfOk result (λ blocks. blocks.items ≡ blocks_in set) }
{
    (0u8..16).filter(|j| set.contains(*j)).collect(heap)
}

fn push_code(text: &mut String, code: Code) -> Result<(), AllocError>
    ensures { OnOk result (string_bytes text.new ≡ string_bytes text.old ++ code_words code) }
{
    match code {
        Code::Ack => text.push_str("ack"),
        Code::AckSelective(set) => {
            let blocks = blocks_in(*text.allocator(), set)?;
            write!(text, "selective{}", Listed(&blocks))
        }
        Code::FullRetry => text.push_str("full"),
        Code::OutOfStep => text.push_str("out-of-step"),
    }
}

pub(crate) fn push_response(text: &mut String, response: Response) -> Result<(), AllocError>
    ensures { OnOk result (string_bytes text.new ≡ string_bytes text.old ++ response_words response) }
{
    let Response {
        route,
        number,
        code,
    } = response;
    write!(
        text,
        "(response {} {} {number} ",
        route.source, route.destination
    )?;
    push_code(text, code)?;
    text.push_str(")\n")
}
