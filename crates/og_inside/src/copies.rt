//! Copies of trees that no file gives yet.

use og_base::Place;
use og_ir::{Case, Flat, FlatFn, FlatOp, FlatRel, Instr, Ir, Slot, SlotDef, SlotSort, Step2, Test};
use og_model::{
    Action, Arg, BinaryOp, Block, Branch, EndKind, Ending, Expr, ExprSort, Node, Proc, Select,
    Step, Target, UnaryOp, VarId, Variable,
};
use og_names::{NameId, NoMemory, Word};
use og_types::{Sort, TypeId, Value};
use sqlite_items::{Boxed, Items};
use std::alloc::Global;
use std::test::Fail;

const PLACE: Place = Place {
    file: 0,
    line: 1,
    column: 1,
};

fn expression(node: Node) -> Expr {
    Expr {
        place: PLACE,
        first: PLACE,
        sort: ExprSort::Int,
        node,
    }
}

fn number(number: i128) -> Expr {
    expression(Node::Number(number))
}

/// The item of a variable at an index that is a sum.
fn target(alloc: Global) -> Result<Target, NoMemory> {
    let left = Boxed::new(alloc, number(1))?;
    let right = Boxed::new(alloc, number(2))?;
    let mut path = Items::new(alloc);
    path.push(Select::Part(0))?;
    path.push(Select::At(expression(Node::Binary(BinaryOp::Add, left, right))))?;
    Ok(Target {
        variable: VarId::Process(0),
        path,
    })
}

fn step(action: Action) -> Step {
    Step {
        label: None,
        place: PLACE,
        action,
    }
}

fn steps(alloc: Global) -> Result<Items<Step>, NoMemory> {
    let inner = Boxed::new(alloc, number(3))?;
    let minus = expression(Node::Unary(UnaryOp::Minus, inner));
    let mut args = Items::new(alloc);
    args.push(Arg::Copy(minus))?;
    args.push(Arg::Bind(VarId::Local(0)))?;
    let mut branches = Items::new(alloc);
    branches.push(Branch {
        answers: Items::new(alloc),
        block: Block {
            steps: Items::new(alloc),
            end: None,
        },
    })?;
    let mut steps = Items::new(alloc);
    steps.push(step(Action::Assign {
        target: target(alloc)?,
        value: expression(Node::Get(target(alloc)?)),
    }))?;
    steps.push(step(Action::Call {
        proc: 0,
        args,
        result: None,
    }))?;
    steps.push(step(Action::Decide {
        question: number(4),
        branches,
        otherwise: None,
    }))?;
    Ok(steps)
}

fn procedure(alloc: Global) -> Result<Proc, NoMemory> {
    let mut locals = Items::new(alloc);
    locals.push(Variable {
        name: NameId(1),
        sort: TypeId(0),
        initial: Value::Int(7),
    })?;
    let mut bodies = Items::new(alloc);
    bodies.push(og_model::Body {
        place: PLACE,
        label: None,
        block: Block {
            steps: steps(alloc)?,
            end: Some(Ending {
                label: None,
                place: PLACE,
                kind: EndKind::Return {
                    exit: None,
                    result: Some(number(5)),
                },
            }),
        },
    })?;
    Ok(Proc {
        name: NameId(0),
        place: PLACE,
        formals: Items::new(alloc),
        locals,
        result: None,
        bodies,
    })
}

/// The action of a step of the first body.
fn action_at(procedure: &Proc, step: usize) -> Option<&Action> {
    let body = procedure.bodies.get(0)?;
    let step = body.block.steps.get(step)?;
    Some(&step.action)
}

#[test]
fn a_copied_procedure_has_the_same_steps(rt: HostRuntime) -> Result<(), Fail> {
    let copy = procedure(rt.alloc())?.copy(rt.alloc())?;
    assert_eq!(rt; copy.locals.len(), 1);
    assert!(rt; matches!(action_at(&copy, 0), Some(Action::Assign { .. })));
    assert!(rt; matches!(action_at(&copy, 1), Some(Action::Call { .. })));
    assert!(rt; matches!(action_at(&copy, 2), Some(Action::Decide { .. })));
    assert!(rt; action_at(&copy, 3).is_none());
    Ok(())
}

fn slot(alloc: Global, index: i64) -> Result<Slot, NoMemory> {
    let mut path = Items::new(alloc);
    path.push(Step2::Field(0))?;
    path.push(Step2::Index(Flat::Number(index)))?;
    Ok(Slot { base: 0, path })
}

fn code(alloc: Global) -> Result<Items<Instr>, NoMemory> {
    let left = Boxed::new(alloc, Flat::Read(slot(alloc, 1)?))?;
    let right = Boxed::new(alloc, Flat::Number(2))?;
    let mut cases = Items::new(alloc);
    cases.push(Case { value: 1, to: 0 })?;
    let mut code = Items::new(alloc);
    code.push(Instr::Set(slot(alloc, 0)?, Flat::Op(FlatOp::Add, left, right)))?;
    code.push(Instr::Copy(slot(alloc, 0)?, slot(alloc, 1)?))?;
    code.push(Instr::Branch(
        Test {
            op: FlatRel::Eq,
            left: Flat::Number(1),
            right: Flat::Number(2),
        },
        0,
    ))?;
    code.push(Instr::Table(Flat::Number(1), cases, 0))?;
    code.push(Instr::Back)?;
    Ok(code)
}

fn word(alloc: Global, bytes: &[u8]) -> Result<Word, NoMemory> {
    let bytes = Items::from_slice(alloc, bytes)?;
    Ok(Word { bytes })
}

fn flat_code(alloc: Global) -> Result<Ir, NoMemory> {
    let mut slots = Items::new(alloc);
    slots.push(SlotDef {
        name: word(alloc, b"r")?,
        sort: SlotSort::Cell,
    })?;
    let mut events = Items::new(alloc);
    events.push(word(alloc, b"o_done")?)?;
    let mut functions = Items::new(alloc);
    functions.push(FlatFn {
        name: word(alloc, b"start")?,
        code: code(alloc)?,
        labels: Items::new(alloc),
    })?;
    Ok(Ir {
        slots,
        events,
        functions,
    })
}

#[test]
fn copied_flat_code_has_the_same_instructions(rt: HostRuntime) -> Result<(), Fail> {
    let copy = flat_code(rt.alloc())?.copy(rt.alloc())?;
    assert_eq!(rt; copy.slots.len(), 1);
    assert_eq!(rt; copy.events.len(), 1);
    let mut length = 0usize;
    for one in copy.functions.as_slice() {
        length = length.saturating_add(one.code.len());
    }
    assert_eq!(rt; length, 5);
    Ok(())
}

#[test]
fn copied_types_and_values_are_alike(rt: HostRuntime) -> Result<(), Fail> {
    let sort = Sort::SeqOf {
        lo: 0,
        hi: 9,
        item: TypeId(0),
    };
    assert!(rt; matches!(sort.copy(rt.alloc())?, Sort::SeqOf { lo: 0, hi: 9, .. }));
    let mut items = Items::new(rt.alloc());
    items.push(Value::Bool(true))?;
    let value = Value::SeqOf(items);
    let Value::SeqOf(items) = value.copy(rt.alloc())? else {
        assert!(rt; false, "another value");
        return Ok(());
    };
    assert!(rt; matches!(items.get(0), Some(Value::Bool(true))));
    Ok(())
}
