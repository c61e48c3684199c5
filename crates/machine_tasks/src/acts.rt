//! What a task does next, told without memory.
ghost use Rattle.std.specs.Prelude.{◌≡◌, ℕ, List, true, IfSome, length, nat_lt, slice_get, if◌then◌else◌};
ghost use Rattle.std.specs.Option.{option_copied, option_map};
ghost use Rattle.core_language.specs.Programs.{Body, Program as CoreProgram, arm_at};
ghost use Rattle.core_language.specs.Computing.{machine, Depth, Env};
ghost use Rattle.core_language.specs.Values as core;
ghost use Rattle.core_language.specs.Configurations.{Caller, Place};
ghost use Rattle.core_language.specs.Acts.{act_at as act_at_body, on_pair, on_sum, chosen, Silent as Silently, channel_in};
ghost use Rattle.core_language.specs.Endings.{is_nil};
ghost use Rattle.core_programs.specs.Bodies.{arms_opened, opened};
ghost use Rattle.core_programs.specs.Formed.{HasDivisor};
ghost use Rattle.machine_values.specs.Reading.{env_of, value_as};
ghost use Rattle.machine_values.specs.Troubles.{computed_of};
ghost use Rattle.machine_tasks.specs.Reading.{act_in};
ghost use Rattle.machine_tasks.specs.Fits.{FramesFit};
ghost use Rattle.machine_values.specs.Cells.{EndTest};
ghost use Rattle.machine_values.specs.Ends.{ValuePasses};
ghost use Rattle.machine_tasks.specs.Ends.{TaskPasses};
ghost use Rattle.machine_tasks.specs.Channels.{has_channel as has_channel_of, channel_named, end_name};
ghost use Rattle.machine_tasks.specs.Kinds.{Silent, End, Fork, IsHalted, kind_as, kind_of, kind_after, kind_at_end, kind_chosen, print_after};

use crate::tasks::Task;
use chan_base::Name;
use chan_syntax::Ident;
use core_programs::{Arm, Node, Program};
use machine_values::{
    Bind, Channel, Halt, StuckWhy, Trouble, Value, lookup, product_of_sums, quotient, remainder,
    sum, weigh_all, weighed,
};

/// What a task does next, where the channel of a send is Empty and that of a receive is Full.
#[derive(Debug, Drop)]
pub enum Act {
    Silent,
    Print(i128),
    Fork,
    Send,
    Recv,
    End,
    Ended,
    Halts(Halt),
    Stuck(StuckWhy),
}

/// The act, once there is a result.
fn after(done: Result<(), Trouble>, act: Act) -> Act
    ensures { kind_as result ≡ kind_after (computed_of done) (kind_as act) }
{
    match done {
        Ok(()) => act,
        Err(Trouble::Stuck(why)) => Act::Stuck(why),
        Err(Trouble::Halts(why)) => Act::Halts(why),
    }
}

fn after_number(number: Result<i128, Trouble>, act: Act) -> Act
    ensures { kind_as result ≡ kind_after (computed_of number) (kind_as act) }
{
    match number {
        Ok(_) => act,
        Err(Trouble::Stuck(why)) => Act::Stuck(why),
        Err(Trouble::Halts(why)) => Act::Halts(why),
    }
}

fn print(number: Result<i128, Trouble>) -> Act
    ensures { kind_as result ≡ print_after (computed_of number) }
{
    match number {
        Ok(number) => Act::Print(number),
        Err(Trouble::Stuck(why)) => Act::Stuck(why),
        Err(Trouble::Halts(why)) => Act::Halts(why),
    }
}

fn fork(name: &Name) -> Act
    ensures { kind_as result ≡ (if nat_lt (length name.now) 1024 then Fork else IsHalted Depth) }
{
    if name.parts() < 1024 {
        Act::Fork
    } else {
        Act::Halts(Halt::Depth)
    }
}

/// The act, where the value is an end.
fn at_end(value: Option<&Value>, act: Act) -> Act
    ensures { kind_as result ≡ kind_at_end (option_map (λ v. value_as v.now) value.entry) (kind_as act) }
{
    match value {
        Some(Value::End(_)) => act,
        _ => Act::Stuck(StuckWhy::NotEnd),
    }
}

fn at_pair(value: Option<&Value>) -> Act
    ensures { (go : core.Value → core.Value → Place)
        → kind_as result ≡ kind_of (on_pair (option_map (λ v. value_as v.now) value.entry) (λ a b. Silently (go a b))) }
{
    match value {
        Some(Value::Pair(_, _)) => Act::Silent,
        _ => Act::Stuck(StuckWhy::NotPair),
    }
}

/// The act of a match, where there is an arm with the value's number.
#[tactic(auto, using(crate::proofs::Arms::arm_kinds, std::proofs::lemmas::Grind::common_steps))]
fn at_arm(arms: &[Arm], number: u8) -> Act
    ensures { kind_as result ≡ kind_chosen (slice_get arms.now number) }
{
    if usize::from(number) < arms.len() {
        Act::Silent
    } else {
        Act::Stuck(StuckWhy::NotSum)
    }
}

#[tactic(auto, using(crate::proofs::Arms::arm_kind, std::proofs::lemmas::Grind::common_steps))]
fn at_sum(value: Option<&Value>, arms: &[Arm]) -> Act
    ensures { (at : ℕ → Body) (env : Env) (callers : List Caller)
        → kind_as result ≡ kind_of (on_sum (option_map (λ v. value_as v.now) value.entry) (λ i v. chosen (arm_at (arms_opened arms.now at) i) env callers v)) }
{
    match value {
        Some(Value::Arm(number, _)) => at_arm(arms, *number),
        _ => Act::Stuck(StuckWhy::NotSum),
    }
}

fn returned(last: bool) -> Act
    ensures { kind_as result ≡ (if last then End else Silent) }
{
    if last { Act::End } else { Act::Silent }
}

/// The act of the task with this name at the node; `last` says that its frame has no caller.
fn act_at(name: &Name, node: &Node, binds: &[Bind], last: bool) -> Act
    requires { HasDivisor node.now }
    ensures { (program : CoreProgram) (forks : ℕ) (at : ℕ → Body) (callers : List Caller) → is_nil callers ≡ last
        → kind_as result ≡ kind_of (act_at_body machine program name.now forks (opened node.now at) (env_of binds.now) callers) }
{
    match node {
        Node::Let { term, .. } => after_number(sum(binds, term), Act::Silent),
        Node::Mul { left, right, .. } => {
            after_number(product_of_sums(binds, left, right), Act::Silent)
        }
        Node::Div { term, divisor, .. } => {
            after_number(quotient(binds, term, *divisor), Act::Silent)
        }
        Node::Rem { term, divisor, .. } => {
            after_number(remainder(binds, term, *divisor), Act::Silent)
        }
        Node::Call { values, .. } => after(weigh_all(binds, values.as_slice()), Act::Silent),
        Node::Tail { values, .. } => after(weigh_all(binds, values.as_slice()), Act::Silent),
        Node::Fork { values, .. } => after(weigh_all(binds, values.as_slice()), fork(name)),
        Node::Send1 { channel, value, .. } => after(
            weighed(binds, value),
            at_end(lookup(binds, channel), Act::Send),
        ),
        Node::Recv1 { channel, .. } => at_end(lookup(binds, channel), Act::Recv),
        Node::Print { term, .. } => print(sum(binds, term)),
        Node::If { left, right, .. } => after_number(
            sum(binds, left),
            after_number(sum(binds, right), Act::Silent),
        ),
        Node::Split { name: pair, .. } => at_pair(lookup(binds, pair)),
        Node::Match {
            name: choice,
            arms,
            ..
        } => at_sum(lookup(binds, choice), arms.as_slice()),
        Node::Absurd { .. } => Act::Stuck(StuckWhy::Absurd),
        Node::Ret { value, .. } => after(weighed(binds, value), returned(last)),
    }
}

/// Whether a step of this kind looks at a channel.
fn has_channel(act: &Act) -> bool
    ensures { result ≡ has_channel_of (kind_as act.now) }
{
    match act {
        Act::Silent => false,
        Act::Print(_) => false,
        Act::Fork => false,
        Act::Send => true,
        Act::Recv => true,
        Act::End => false,
        Act::Ended => false,
        Act::Halts(_) => false,
        Act::Stuck(_) => false,
    }
}

/// The variable whose value is the channel's end.
fn channel_name(node: &Node) -> Option<&Ident>
    ensures { option_copied result ≡ channel_named node.now }
{
    match node {
        Node::Send1 { channel, .. } => Some(channel),
        Node::Recv1 { channel, .. } => Some(channel),
        Node::Let { .. } => None,
        Node::Mul { .. } => None,
        Node::Div { .. } => None,
        Node::Rem { .. } => None,
        Node::Call { .. } => None,
        Node::Tail { .. } => None,
        Node::Fork { .. } => None,
        Node::Print { .. } => None,
        Node::If { .. } => None,
        Node::Split { .. } => None,
        Node::Match { .. } => None,
        Node::Absurd { .. } => None,
        Node::Ret { .. } => None,
    }
}

fn end(value: Option<&Value>) -> Option<&Channel>
    ensures name { option_map (λ channel. channel.now.name) result ≡ end_name (option_map (λ v. value_as v.now) value.entry) }
    ensures cell { (test : EndTest) → IfSome value.entry (λ v. ValuePasses test v.now)
        → IfSome result (λ channel. test channel.now.name channel.now.cell.0 ≡ true) }
{
    match value {
        Some(Value::End(channel)) => Some(channel),
        _ => None,
    }
}

impl Task {
    /// The channel of a task whose act is Send or Recv.
    pub fn channel(&self, program: &Program) -> Option<&Channel>
        requires fits { FramesFit program.now.nodes self.now.frames.items }
        ensures name { option_map (λ channel. channel.now.name) result ≡ channel_in (act_in program.now self.now) }
        ensures cell { (test : EndTest) → TaskPasses test self.now → IfSome result (λ channel. test channel.now.name channel.now.cell.0 ≡ true) }
    {
        let Some(frame) = self.top() else {
            return None;
        };
        let Some(name) = channel_name(program.node(frame.node)) else {
            return None;
        };
        if has_channel(&self.act(program)) {
            end(lookup(frame.binds.as_slice(), name))
        } else {
            None
        }
    }

    /// How many forks the task has made.
    pub fn forks(&self) -> u32
        ensures { result ≡ self.now.forks }
    {
        self.forks
    }

    /// What the task does next, where the channel of a send is Empty and that of a receive is Full.
    pub fn act(&self, program: &Program) -> Act
        requires fits { FramesFit program.now.nodes self.now.frames.items }
        ensures { kind_as result ≡ kind_of (act_in program.now self.now) }
    {
        match self.top() {
            Some(frame) => {
                let node = program.node(frame.node);
                let last = self.frames.len() == 1;
                act_at(&self.name, node, frame.binds.as_slice(), last)
            }
            None => Act::Ended,
        }
    }
}
