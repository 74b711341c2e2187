ghost use Rattle.std.specs.Prelude.{◌≡◌, IfOk};
ghost use Rattle.og_csubset.specs.Spelling.{word as word_of};
ghost use Rattle.og_inside.specs.Example.{count as count_read, pair_struct, example_globals, element as element_of, picked as picked_of, choice as choice_of, example_body, example as example_program};

use og_cprint::print_c;
use og_csubset::{
    CCase, CExpr, CFunction, CGlobal, CMember, COp, CPlace, CProgram, CRel, CStep, CStmt, CStruct,
    CTest, CType,
};
use og_names::{NoMemory, Word};
use sqlite_items::{Boxed, Items};
use std::alloc::Global;

/// The whole text of the example, by hand.
const EXPECTED: &[u8] = b"#include <stdint.h>

typedef struct {
    int64_t n;
    int64_t list[3];
} Pair;

Pair pair;
int64_t count;

void done(void);

void start(void)
{
again:;
    pair.list[count] = (count < INT64_C(0) ? (-INT64_C(9223372036854775807) - INT64_C(1)) : count - -count);
    switch (count) {
    case INT64_C(0): goto again;
    case (-INT64_C(9223372036854775807) - INT64_C(1)): goto end;
    default: goto end;
    }
end:;
    done();
    return;
}
";

fn word(alloc: Global, bytes: &[u8]) -> Result<Word, NoMemory>
    ensures { IfOk result (λ word. word ≡ word_of bytes.now) }
{
    Ok(Word {
        bytes: Items::from_slice(alloc, bytes)?,
    })
}

fn count(alloc: Global) -> Result<CExpr, NoMemory>
    ensures { IfOk result (λ expression. expression ≡ count_read) }
{
    Ok(CExpr::Read(CPlace {
        name: word(alloc, b"count")?,
        path: Items::new(alloc),
    }))
}

fn pair(alloc: Global) -> Result<CStruct, NoMemory>
    ensures { IfOk result (λ shape. shape ≡ pair_struct) }
{
    let mut members = Items::new(alloc);
    members.push(CMember {
        kind: CType::Int64,
        name: word(alloc, b"n")?,
        size: None,
    })?;
    members.push(CMember {
        kind: CType::Int64,
        name: word(alloc, b"list")?,
        size: Some(3),
    })?;
    Ok(CStruct {
        name: word(alloc, b"Pair")?,
        members,
    })
}

fn globals(alloc: Global) -> Result<Items<CGlobal>, NoMemory>
    ensures { IfOk result (λ globals. globals ≡ example_globals) }
{
    let mut globals = Items::new(alloc);
    globals.push(CGlobal {
        kind: CType::Struct(word(alloc, b"Pair")?),
        name: word(alloc, b"pair")?,
    })?;
    globals.push(CGlobal {
        kind: CType::Int64,
        name: word(alloc, b"count")?,
    })?;
    Ok(globals)
}

fn element(alloc: Global) -> Result<CPlace, NoMemory>
    ensures { IfOk result (λ place. place ≡ element_of) }
{
    let mut path = Items::new(alloc);
    path.push(CStep::Member(word(alloc, b"list")?))?;
    path.push(CStep::At(count(alloc)?))?;
    Ok(CPlace {
        name: word(alloc, b"pair")?,
        path,
    })
}

fn picked(alloc: Global) -> Result<CExpr, NoMemory>
    ensures { IfOk result (λ expression. expression ≡ picked_of) }
{
    let test = CTest {
        op: CRel::Lt,
        left: Boxed::new(alloc, count(alloc)?)?,
        right: Boxed::new(alloc, CExpr::Number(0))?,
    };
    let opposite = CExpr::Minus(Boxed::new(alloc, count(alloc)?)?);
    let difference = CExpr::Op(
        COp::Sub,
        Boxed::new(alloc, count(alloc)?)?,
        Boxed::new(alloc, opposite)?,
    );
    Ok(CExpr::Pick(
        test,
        Boxed::new(alloc, CExpr::Number(i64::MIN))?,
        Boxed::new(alloc, difference)?,
    ))
}

fn choice(alloc: Global) -> Result<CStmt, NoMemory>
    ensures { IfOk result (λ statement. statement ≡ choice_of) }
{
    let mut cases = Items::new(alloc);
    cases.push(CCase {
        value: 0,
        label: word(alloc, b"again")?,
    })?;
    cases.push(CCase {
        value: i64::MIN,
        label: word(alloc, b"end")?,
    })?;
    Ok(CStmt::Switch(count(alloc)?, cases, word(alloc, b"end")?))
}

fn body(alloc: Global) -> Result<Items<CStmt>, NoMemory>
    ensures { IfOk result (λ body. body ≡ example_body) }
{
    let mut body = Items::new(alloc);
    body.push(CStmt::Label(word(alloc, b"again")?))?;
    body.push(CStmt::Assign(element(alloc)?, picked(alloc)?))?;
    body.push(choice(alloc)?)?;
    body.push(CStmt::Label(word(alloc, b"end")?))?;
    body.push(CStmt::Call(word(alloc, b"done")?))?;
    body.push(CStmt::Return)?;
    Ok(body)
}

fn example(alloc: Global) -> Result<CProgram, NoMemory>
    ensures { IfOk result (λ program. program ≡ example_program) }
{
    let mut structs = Items::new(alloc);
    structs.push(pair(alloc)?)?;
    let mut events = Items::new(alloc);
    events.push(word(alloc, b"done")?)?;
    let mut functions = Items::new(alloc);
    functions.push(CFunction {
        name: word(alloc, b"start")?,
        body: body(alloc)?,
    })?;
    Ok(CProgram {
        structs,
        globals: globals(alloc)?,
        events,
        functions,
    })
}

#[test]
fn a_program_is_printed_as_a_person_would_write_it(rt: HostRuntime) -> Result<(), NoMemory> {
    let program = example(rt.alloc())?;
    let text = print_c(rt.alloc(), &program)?;
    assert!(rt; text.as_slice() == EXPECTED);
    Ok(())
}
