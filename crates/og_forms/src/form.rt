//! The forms of SDL/PR that are built one after the other.
ghost use Rattle.std.specs.Prelude.{◌≡◌};
ghost use Rattle.og_forms.specs.Forms.{is_built as is_built_form};

/// A form of SDL/PR beyond signals without parameters and basic states that send them (Z.101 clauses 9 to 12, Z.102 clauses
/// 9 to 12). A form stands at its first token.
#[derive(Clone, Copy, Debug, PartialEq, Eq)]
pub enum Form {
    /// SIGNAL with types of parameters.
    Parameters,
    Dcl,
    /// TASK with an assignment whose right side is no CALL.
    Assignment,
    /// TASK with a text.
    InformalTask,
    /// INPUT with variables.
    InputVariables,
    /// OUTPUT with values.
    OutputValues,
    /// Several names in one STATE.
    SeveralStates,
    /// Several names in one INPUT.
    SeveralInputs,
    /// Several names in one OUTPUT.
    SeveralOutputs,
    /// `STATE *`
    EveryState,
    /// `NEXTSTATE -`
    Dash,
    /// `NEXTSTATE -*`
    History,
    /// CALL of append, write or writeln.
    WriteCall,
    Save,
    /// PROVIDED behind an INPUT.
    EnablingCondition,
    Decision,
    /// A name and a colon before an action or a terminator.
    Label,
    Join,
    Connection,
    Stop,
    Procedure,
    /// CALL of another name than append, write, writeln, set_timer and reset_timer.
    ProcedureCall,
    /// An assignment whose right side is a CALL.
    AssignedCall,
    Return,
    CompositeState,
    /// START with a name.
    NamedStart,
    /// CONNECT in a state.
    Connect,
    /// `NEXTSTATE name VIA name`
    Via,
    Timer,
    /// CALL of set_timer or reset_timer.
    TimerCall,
    Aggregation,
    /// PROVIDED that no INPUT stands before.
    ContinuousSignal,
}

/// Whether models with the form can be compiled: types of signals' parameters, and tasks that are a text.
#[tactic(auto, unfolding(crate::specs::Forms::is_built))]
pub fn is_built(form: Form) -> bool
    ensures { result ≡ is_built_form form }
{
    match form {
        Form::Parameters => true,
        Form::Dcl => false,
        Form::Assignment => false,
        Form::InformalTask => true,
        Form::InputVariables => false,
        Form::OutputValues => false,
        Form::SeveralStates => false,
        Form::SeveralInputs => false,
        Form::SeveralOutputs => false,
        Form::EveryState => false,
        Form::Dash => false,
        Form::History => false,
        Form::WriteCall => false,
        Form::Save => false,
        Form::EnablingCondition => false,
        Form::Decision => false,
        Form::Label => false,
        Form::Join => false,
        Form::Connection => false,
        Form::Stop => false,
        Form::Procedure => false,
        Form::ProcedureCall => false,
        Form::AssignedCall => false,
        Form::Return => false,
        Form::CompositeState => false,
        Form::NamedStart => false,
        Form::Connect => false,
        Form::Via => false,
        Form::Timer => false,
        Form::TimerCall => false,
        Form::Aggregation => false,
        Form::ContinuousSignal => false,
    }
}
