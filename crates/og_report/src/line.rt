//! The line that names a violation.
ghost use Rattle.std.specs.Prelude.{◌≡◌, ◌++◌, OnOk, decimal};
ghost use Rattle.og_report.specs.Line.{report_line as line_of, rule_text as text_of, behind_place, area_text, box_text, number_text, pair_text, place_text};

use crate::Report;
use itoa::Buffer;
use og_base::{Place, Rule};
use og_cif::CifBox;
use og_names::NoMemory;

/// Appends `refused RULE FILE:LINE:COLUMN`, where the report has a box then ` in SYMBOL (x, y), (w, h)`, and a line end.
pub fn report_line(report: &Report, file: &[u8], out: &mut Vec<u8>) -> Result<(), NoMemory>
    ensures { OnOk result (out.new.items ≡ out.old.items ++ line_of report.now file.now) }
{
    put(out, b"refused ")?;
    put(out, rule_text(report.rule))?;
    put(out, b" ")?;
    put_place(out, file, report.place)?;
    put_frame(out, report.frame)?;
    put(out, b"\n")
}

fn put_place(out: &mut Vec<u8>, file: &[u8], place: Place) -> Result<(), NoMemory>
    ensures { OnOk result (out.new.items ≡ out.old.items ++ place_text file.now place) }
{
    put(out, file)?;
    put(out, b":")?;
    put_count(out, place.line)?;
    put(out, b":")?;
    put_count(out, place.column)
}

fn put_frame(out: &mut Vec<u8>, frame: Option<CifBox>) -> Result<(), NoMemory>
    ensures { OnOk result (out.new.items ≡ out.old.items ++ behind_place frame) }
{
    match frame {
        None => Ok(()),
        Some(frame) => {
            put(out, b" in ")?;
            put_box(out, frame)
        }
    }
}

fn put_box(out: &mut Vec<u8>, frame: CifBox) -> Result<(), NoMemory>
    ensures { OnOk result (out.new.items ≡ out.old.items ++ box_text frame) }
{
    put(out, frame.symbol.text())?;
    put(out, b" ")?;
    put_area(out, frame)
}

#[tactic(auto, unfolding(crate::specs::Line::area_text))]
fn put_area(out: &mut Vec<u8>, frame: CifBox) -> Result<(), NoMemory>
    ensures { OnOk result (out.new.items ≡ out.old.items ++ area_text frame) }
{
    put_pair(out, frame.x, frame.y)?;
    put(out, b", ")?;
    put_pair(out, frame.w, frame.h)
}

#[tactic(auto, unfolding(crate::specs::Line::pair_text))]
fn put_pair(out: &mut Vec<u8>, first: i32, second: i32) -> Result<(), NoMemory>
    ensures { OnOk result (out.new.items ≡ out.old.items ++ pair_text first second) }
{
    put(out, b"(")?;
    put_number(out, first)?;
    put(out, b", ")?;
    put_number(out, second)?;
    put(out, b")")
}

fn put_number(out: &mut Vec<u8>, number: i32) -> Result<(), NoMemory>
    ensures { OnOk result (out.new.items ≡ out.old.items ++ number_text number) }
{
    let mut buffer = Buffer::new();
    put(out, buffer.format(number).as_bytes())
}

fn put_count(out: &mut Vec<u8>, count: u32) -> Result<(), NoMemory>
    ensures { OnOk result (out.new.items ≡ out.old.items ++ decimal count) }
{
    let mut buffer = Buffer::new();
    put(out, buffer.format(count).as_bytes())
}

fn put(out: &mut Vec<u8>, bytes: &[u8]) -> Result<(), NoMemory>
    ensures { OnOk result (out.new.items ≡ out.old.items ++ bytes.now) }
{
    out.extend_from_slice(bytes)?;
    Ok(())
}

/// The name of a rule, as users see it.
fn rule_text(rule: Rule) -> &'static [u8]
    ensures { result.now ≡ text_of rule }
{
    match rule {
        Rule::L1 => b"L1",
        Rule::L2 => b"L2",
        Rule::L3 => b"L3",
        Rule::L4 => b"L4",
        Rule::S1 => b"S1",
        Rule::S2 => b"S2",
        Rule::F1 => b"F1",
        Rule::N1 => b"N1",
        Rule::N2 => b"N2",
        Rule::N3 => b"N3",
        Rule::N4 => b"N4",
        Rule::N5 => b"N5",
        Rule::N6 => b"N6",
        Rule::N7 => b"N7",
        Rule::T1 => b"T1",
        Rule::T2 => b"T2",
        Rule::T3 => b"T3",
        Rule::T4 => b"T4",
        Rule::T6 => b"T6",
        Rule::T7 => b"T7",
        Rule::G1 => b"G1",
        Rule::G2 => b"G2",
        Rule::G3 => b"G3",
        Rule::G4 => b"G4",
        Rule::G5 => b"G5",
        Rule::A1 => b"A1",
        Rule::A2 => b"A2",
        Rule::A3 => b"A3",
        Rule::A4 => b"A4",
        Rule::A5 => b"A5",
        Rule::A6 => b"A6",
        Rule::A7 => b"A7",
        Rule::A8 => b"A8",
        Rule::A9 => b"A9",
        Rule::A10 => b"A10",
        Rule::A11 => b"A11",
        Rule::A12 => b"A12",
        Rule::M1 => b"M1",
        Rule::M2 => b"M2",
        Rule::M3 => b"M3",
        Rule::M4 => b"M4",
    }
}
