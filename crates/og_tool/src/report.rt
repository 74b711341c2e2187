//! The lines that say that model files are accepted, and what is wrong with a program's file.
ghost use Rattle.std.specs.Prelude.{◌≡◌, ◌++◌, ◌∷◌, [], IfOk, OnOk, codes, decimal};
ghost use Rattle.og_stim.specs.Trace.{name_of};
ghost use Rattle.og_tool.specs.Answers.{accepted_line as accepted_line_of};
ghost use Rattle.og_tool.specs.Programs.{bad_program_line as bad_line_of, load_rule_text as load_text_of, placed_line as placed_line_of};

use crate::program::BadProgram;
use itoa::Buffer;
use og_base::Place;
use og_cstep::LoadRule;
use og_model::Model;
use og_names::NoMemory;
use std::alloc::Global;

/// `accepted NAME` and a line end, with the name of the model's process.
pub fn accepted_line(alloc: Global, model: &Model) -> Result<Vec<u8>, NoMemory>
    ensures { IfOk result (λ line. line.items ≡ accepted_line_of (name_of model.now model.now.name)) }
{
    let mut line = Vec::from_slice(alloc, b"accepted ")?;
    if let Some(name) = model.names.text(model.name) {
        line.extend_from_slice(name)?;
    }
    line.extend_from_slice(b"\n")?;
    Ok(line)
}

/// `bad RULE FILE:LINE:COLUMN` for a text that is none of a program or nests too deep, else `bad RULE FILE`, and a line end.
pub fn bad_program_line(alloc: Global, file: &[u8], bad: BadProgram) -> Result<Vec<u8>, NoMemory>
    ensures { IfOk result (λ line. line.items ≡ bad_line_of file.now bad) }
{
    match bad {
        BadProgram::NoForm(place) => placed_line(alloc, b"K1", file, place),
        BadProgram::TooDeep(place) => placed_line(alloc, b"K2", file, place),
        BadProgram::Breaks(rule) => named_line(alloc, load_rule_text(rule), file),
    }
}

fn placed_line(alloc: Global, rule: &[u8], file: &[u8], place: Place) -> Result<Vec<u8>, NoMemory>
    ensures { IfOk result (λ line. line.items ≡ placed_line_of rule.now file.now place) }
{
    let mut line = Vec::from_slice(alloc, b"bad ")?;
    line.extend_from_slice(rule)?;
    line.extend_from_slice(b" ")?;
    line.extend_from_slice(file)?;
    line.extend_from_slice(b":")?;
    put_number(&mut line, place.line)?;
    line.extend_from_slice(b":")?;
    put_number(&mut line, place.column)?;
    line.extend_from_slice(b"\n")?;
    Ok(line)
}

fn named_line(alloc: Global, rule: &[u8], file: &[u8]) -> Result<Vec<u8>, NoMemory>
    ensures { IfOk result (λ line. line.items ≡ codes "bad " ++ rule.now ++ codes " " ++ file.now ++ 10 ∷ []) }
{
    let mut line = Vec::from_slice(alloc, b"bad ")?;
    line.extend_from_slice(rule)?;
    line.extend_from_slice(b" ")?;
    line.extend_from_slice(file)?;
    line.extend_from_slice(b"\n")?;
    Ok(line)
}

/// The name of a load rule, as users see it.
fn load_rule_text(rule: LoadRule) -> &'static [u8]
    ensures { result.now ≡ load_text_of rule }
{
    match rule {
        LoadRule::K3 => b"K3",
        LoadRule::K4 => b"K4",
        LoadRule::K5 => b"K5",
        LoadRule::K6 => b"K6",
        LoadRule::K7 => b"K7",
        LoadRule::K8 => b"K8",
        LoadRule::K9 => b"K9",
    }
}

fn put_number(line: &mut Vec<u8>, number: u32) -> Result<(), NoMemory>
    ensures { OnOk result (line.new.items ≡ line.old.items ++ decimal number) }
{
    let mut buffer = Buffer::new();
    line.extend_from_slice(buffer.format(number).as_bytes())?;
    Ok(())
}
