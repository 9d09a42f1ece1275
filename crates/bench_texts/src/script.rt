//! The script of a text, or its fault.
ghost use Rattle.std.specs.Prelude.{◌≡◌, IfOk, IfErr};
ghost use Rattle.bench_texts.specs.Texts.{IsWhyNoScript, MeansPlan, at_origin, lab_text as lab_text_of};

use crate::origins::origin;
use crate::texts::lab_text;
use script_reader::{ScriptFault, read_plan};
use std::alloc::{AllocError, Allocator};

/// Why a text has no script.
#[derive(Clone, Copy, PartialEq, Eq, Debug)]
pub enum NotScript {
    /// The script that it stands for is refused, because of this line of the text.
    Fault(ScriptFault),
    NoMemory,
}

/// A fault of the script that a text stands for, at the line of the text from which it came.
pub fn at_origin(text: &[u8], fault: ScriptFault) -> ScriptFault
    ensures { result ≡ at_origin text.now fault }
{
    ScriptFault {
        line: origin(text, fault.line),
        cause: fault.cause,
    }
}

/// The script that a text stands for, which is read, so that it has no fault: of a text `bench 1` a script `lab 2`, and of a script itself.
pub fn lab_script<A: Allocator + Copy>(alloc: A, text: &[u8]) -> Result<Vec<u8, A>, NotScript>
    ensures text { IfOk result (λ script. script.items ≡ lab_text_of text.now) }
    ensures plan { IfOk result (λ script. MeansPlan text.now) }
    ensures fault { IfErr result (λ why. IsWhyNoScript text.now why) }
{
    let script = match lab_text(alloc, text) {
        Ok(script) => script,
        Err(AllocError) => return Err(NotScript::NoMemory),
    };
    match read_plan(alloc, &script) {
        Ok(_) => Ok(script),
        Err(fault) => Err(NotScript::Fault(at_origin(text, fault))),
    }
}
