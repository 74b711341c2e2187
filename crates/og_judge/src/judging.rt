//! The public call.
ghost use Rattle.std.specs.Prelude.{◌≡◌, ◌≤◌, IfOk, IfErr, length};
ghost use Rattle.og_front.specs.Names.{HasShortNames};
ghost use Rattle.og_front.specs.Written.{IsWrittenTree};
ghost use Rattle.og_judge.specs.Judging.{HasOneProcess, AreShort, AreModulesOf, most_files, sources};
ghost use Rattle.og_judge.specs.Answers.{IsJudged, Refuses, AreLexed, IsNamed, BreakNames, IsBuiltFrom, IsFirstOfRules};

use crate::ModelFile;
use crate::texts::lex_files;
use crate::trees::{modules_of, tree_of};
use og_asn1::ModuleTree;
use og_base::ModelError;
use og_dataview::first_violation as names_violation;
use og_front::{SystemText, first_violation, model_of, tables_of};
use og_lexer::Lexed;
use og_model::Model;
use std::alloc::Global;

/// The model of model files that violate no rule, or their first violation. The files are numbered from 0 in their order.
pub fn judge(alloc: Global, files: &[ModelFile]) -> Result<Model, ModelError>
    requires few { length files.now ≤ most_files }
    requires short { AreShort (sources files.now) }
    requires one { HasOneProcess (sources files.now) }
    ensures accepted { IfOk result (IsJudged (sources files.now)) }
    ensures refused { IfErr result (Refuses (sources files.now)) }
{
    match lex_files(alloc, files) {
        Err(error) => Err(error),
        Ok(texts) => judge_texts(alloc, files, texts.as_slice()),
    }
}

/// The same, from the tokens of the files on.
fn judge_texts(alloc: Global, files: &[ModelFile], texts: &[Lexed]) -> Result<Model, ModelError>
    requires few { length files.now ≤ most_files }
    requires one { HasOneProcess (sources files.now) }
    requires lexed { AreLexed 0 (sources files.now) texts.now }
    ensures accepted { IfOk result (IsJudged (sources files.now)) }
    ensures refused { IfErr result (Refuses (sources files.now)) }
{
    match modules_of(alloc, files, texts) {
        Err(error) => Err(error),
        Ok(modules) => judge_modules(alloc, files, texts, modules.as_slice()),
    }
}

/// The same, from the modules of the files on.
fn judge_modules(
    alloc: Global,
    files: &[ModelFile],
    texts: &[Lexed],
    modules: &[ModuleTree],
) -> Result<Model, ModelError>
    requires few { length files.now ≤ most_files }
    requires one { HasOneProcess (sources files.now) }
    requires lexed { AreLexed 0 (sources files.now) texts.now }
    requires parsed { AreModulesOf 0 (sources files.now) modules.now }
    ensures accepted { IfOk result (IsJudged (sources files.now)) }
    ensures refused { IfErr result (Refuses (sources files.now)) }
{
    match tree_of(alloc, files, texts) {
        Err(error) => Err(error),
        Ok(system) => judge_names(alloc, modules, &system),
    }
}

/// The model of a tree that keeps the rules, where the modules keep those on names; else their first violation.
fn judge_names(
    alloc: Global,
    modules: &[ModuleTree],
    system: &SystemText,
) -> Result<Model, ModelError>
    requires short { HasShortNames system.now }
    requires written { IsWrittenTree system.now }
    ensures named { IfOk result (IsNamed modules.now system.now) }
    ensures broken { IfErr result (BreakNames modules.now system.now) }
{
    match names_violation(alloc, modules)? {
        Some(violation) => Err(ModelError::Broken(violation)),
        None => model_of_system(alloc, system),
    }
}

/// The model of a tree that keeps the rules, or its first violation.
fn model_of_system(alloc: Global, system: &SystemText) -> Result<Model, ModelError>
    requires short { HasShortNames system.now }
    requires written { IsWrittenTree system.now }
    ensures built { IfOk result (IsBuiltFrom system.now) }
    ensures broken { IfErr result (IsFirstOfRules system.now) }
{
    let tables = tables_of(alloc, system)?;
    if let Some(violation) = first_violation(alloc, system, &tables)? {
        return Err(ModelError::Broken(violation));
    }
    match model_of(alloc, system, &tables) {
        Ok(model) => Ok(model),
        Err(met) => Err(ModelError::NoMemory(met)),
    }
}
