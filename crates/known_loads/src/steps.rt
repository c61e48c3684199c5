//! What the steps make of a state.
ghost use Rattle.std.specs.Prelude.{◌≡◌, ℕ, ◌≤◌, ◌<◌, ◌^◌, Some, [], ◌∷◌, ◌++◌, OnOk, OnErr, IfOk, IfErr, vec_len, vec_capacity};
ghost use Rattle.core_language.specs.Names.{Name as AnyName};
ghost use Rattle.core_language.specs.Acts.{channel_in};
ghost use Rattle.cell_rules.specs.Lists.{In};
ghost use Rattle.machine_tasks.specs.Kinds.{kind_as};
ghost use Rattle.machine_tasks.specs.Reading.{act_in};
ghost use Rattle.machine_tasks.specs.Sharing.{Branches, Receives, Sends as SendsValue};
ghost use Rattle.known_tasks.specs.Nexts.{Silent, Fork, Send, Recv, End, next};
ghost use Rattle.known_tasks.specs.Calls.{IsFor, after_finish, after_receive, after_silent};
ghost use Rattle.known_loads.specs.Ends.{task_ends};
ghost use Rattle.known_loads.specs.Following.{HasNote, IsMade, IsReady, IsUnchanged, MakesSend, MakesFork, no_news, print_in, received};
ghost use Rattle.known_loads.specs.Holding.{Holds};
ghost use Rattle.known_loads.specs.Meaning.{numbered};
ghost use Rattle.known_loads.specs.Reading.{known_of, parcel_as};

use crate::letters::Letter;
use crate::notes::{Deed, Note};
use crate::states::{Late, State};
use chan_base::{Memory, Number};
use core_programs::Program;
use machine_tasks::{Act, Bind, Channel, Offspring, Parcel, Slot};
use std::alloc::Global;

/// One note more, for which there is room.
fn note(notes: &mut Vec<Note>, time: u64, deed: Deed)
    requires { vec_len notes.old < vec_capacity notes.old }
    ensures { notes.new.items ≡ notes.old.items ++ record { time = time; deed = deed } ∷ [] }
{
    notes.push_reserved(Note { time, deed });
}

/// The same channel.
fn copy_of(channel: &Channel) -> Result<Channel, Memory>
    ensures { IfOk result (λ copy. copy ≡ channel.now) }
{
    let name = channel.name.copy()?;
    let cell = channel.cell;
    Ok(Channel { name, cell })
}

/// What an act prints, if it is a print.
fn printed(act: &Act) -> Option<i128>
    ensures { result ≡ print_in (kind_as act.now) }
{
    match act {
        Act::Print(number) => Some(*number),
        _ => None,
    }
}

impl State {
    /// Room for one note.
    fn reserve_note(&mut self) -> Result<(), Memory>
        ensures same { IsUnchanged self.old self.new }
        ensures room { OnOk result (HasNote self.new) }
    {
        self.notes.reserve(1)?;
        Ok(())
    }

    /// Room for one note and for one variable.
    fn make_ready(&mut self) -> Result<(), Memory>
        ensures same { IsUnchanged self.old self.new }
        ensures room { OnOk result (IsReady self.new) }
    {
        self.notes.reserve(1)?;
        self.task.make_room(1)
    }

    /// Makes a step that shows nothing, or prints. There is room for its note.
    fn try_silent(&mut self, alloc: Global, program: &Program) -> Result<(), Memory>
        requires holds { Holds (program.now, self.old) }
        requires room { HasNote self.old }
        requires next { next (known_of (program.now, self.old)) ≡ Some Silent }
        ensures ok { OnOk result (IsMade program.now self.old self.new (after_silent (known_of (program.now, self.old))) no_news) }
        ensures err { OnErr result (IsUnchanged self.old self.new) }
    {
        let act = self.task.try_step(alloc, program)?;
        match printed(&act) {
            Some(number) => {
                self.task.print(program);
                self.time += 1;
                note(&mut self.notes, self.time, Deed::Print(number));
                Ok(())
            }
            None => {
                self.time += 1;
                Ok(())
            }
        }
    }

    /// Makes a step that shows nothing, or prints.
    pub(crate) fn make_silent(&mut self, alloc: Global, program: &Program) -> Result<(), Memory>
        requires holds { Holds (program.now, self.old) }
        requires next { next (known_of (program.now, self.old)) ≡ Some Silent }
        ensures ok { OnOk result (IsMade program.now self.old self.new (after_silent (known_of (program.now, self.old))) no_news) }
        ensures err { OnErr result (IsUnchanged self.old self.new) }
    {
        self.reserve_note()?;
        self.try_silent(alloc, program)
    }

    /// Makes the last step. There is room for its note.
    fn try_end(&mut self, alloc: Global, program: &Program) -> Result<(), Memory>
        requires holds { Holds (program.now, self.old) }
        requires room { HasNote self.old }
        requires next { next (known_of (program.now, self.old)) ≡ Some End }
        ensures ok { OnOk result (IsMade program.now self.old self.new (after_finish (known_of (program.now, self.old))) no_news) }
        ensures err { OnErr result (IsUnchanged self.old self.new) }
    {
        self.task.advance(alloc, program)?;
        self.time += 1;
        note(&mut self.notes, self.time, Deed::End);
        Ok(())
    }

    /// Makes the last step.
    pub(crate) fn make_end(&mut self, alloc: Global, program: &Program) -> Result<(), Memory>
        requires holds { Holds (program.now, self.old) }
        requires next { next (known_of (program.now, self.old)) ≡ Some End }
        ensures ok { OnOk result (IsMade program.now self.old self.new (after_finish (known_of (program.now, self.old))) no_news) }
        ensures err { OnErr result (IsUnchanged self.old self.new) }
    {
        self.reserve_note()?;
        self.try_end(alloc, program)
    }

    /// Goes on after a fork, for which there is room, and gives the state of the child.
    fn branch_off(
        &mut self,
        alloc: Global,
        program: &Program,
        made: Offspring,
        channel: Channel,
    ) -> State
        requires holds { Holds (program.now, self.old) }
        requires room { IsReady self.old }
        requires next { next (known_of (program.now, self.old)) ≡ Some Fork }
        requires made { Branches program.now self.old.task channel.cell.0 made }
        requires channel { channel.name ≡ made.child.name }
        ensures { MakesFork program.now self.old self.new channel.cell.0 result }
    {
        let Offspring { child, end, next } = made;
        let cell = channel.cell;
        self.task.branch(program, end, next);
        self.time += 1;
        note(&mut self.notes, self.time, Deed::Fork(channel));
        State {
            limit: self.limit,
            cell,
            time: self.time,
            task: child,
            notes: Vec::new(alloc),
            late: None,
        }
    }

    /// What a fork makes, and its channel, which has this cell.
    fn fork_parts(
        &self,
        alloc: Global,
        program: &Program,
        cell: Number,
    ) -> Result<(Offspring, Channel), Memory>
        requires holds { Holds (program.now, self.now) }
        requires next { next (known_of (program.now, self.now)) ≡ Some Fork }
        ensures made { IfOk result (λ r. Branches program.now self.now.task cell.0 r.0) }
        ensures channel { IfOk result (λ r. (r.1.name ≡ r.0.child.name) × (r.1.cell ≡ cell)) }
    {
        let made = self.task.offspring(alloc, program, cell)?;
        let name = made.child.name().copy()?;
        Ok((made, Channel { name, cell }))
    }

    /// Makes a fork, and gives the state of the child. The channel of the two has this cell.
    pub(crate) fn make_fork(
        &mut self,
        alloc: Global,
        program: &Program,
        cell: Number,
    ) -> Result<State, Memory>
        requires holds { Holds (program.now, self.old) }
        requires next { next (known_of (program.now, self.old)) ≡ Some Fork }
        ensures ok { IfOk result (λ child. MakesFork program.now self.old self.new cell.0 child) }
        ensures err { IfErr result (λ _. IsUnchanged self.old self.new) }
    {
        self.make_ready()?;
        let (made, channel) = self.fork_parts(alloc, program, cell)?;
        Ok(self.branch_off(alloc, program, made, channel))
    }

    /// The channel of a send, what it puts there, and the node at which the task goes on.
    fn send_parts(
        &self,
        alloc: Global,
        program: &Program,
    ) -> Result<(Channel, Channel, Parcel), Memory>
        requires holds { Holds (program.now, self.now) }
        requires next { (c : AnyName) × (next (known_of (program.now, self.now)) ≡ Some (Send c)) }
        ensures channel { IfOk result (λ r. (r.0 ≡ r.1) × In (numbered r.0) (task_ends self.now.task)) }
        ensures name { IfOk result (λ r. channel_in (act_in program.now self.now.task) ≡ Some r.0.name) }
        ensures parcel { IfOk result (λ r. SendsValue program.now self.now.task r.2) }
    {
        let channel = copy_of(self.channel(program))?;
        let noted = copy_of(&channel)?;
        let parcel = self.task.parcel(alloc, program)?;
        Ok((channel, noted, parcel))
    }

    /// Goes on after a send, for which there is room.
    fn send_off(
        &mut self,
        program: &Program,
        channel: Channel,
        noted: Channel,
        parcel: Parcel,
    ) -> Letter
        requires holds { Holds (program.now, self.old) }
        requires room { HasNote self.old }
        requires next { (c : AnyName) × (next (known_of (program.now, self.old)) ≡ Some (Send c)) }
        requires channel { (channel ≡ noted) × In (numbered channel) (task_ends self.old.task) }
        requires name { channel_in (act_in program.now self.old.task) ≡ Some channel.name }
        requires parcel { SendsValue program.now self.old.task parcel }
        ensures { MakesSend program.now self.old self.new result }
    {
        let Parcel { value, next } = parcel;
        self.task.go_on(program, next);
        self.time += 1;
        note(&mut self.notes, self.time, Deed::Send(noted));
        Letter {
            limit: self.limit,
            channel,
            value,
            round: self.time,
        }
    }

    /// Makes a send, and gives what it puts on the channel.
    pub(crate) fn make_send(&mut self, alloc: Global, program: &Program) -> Result<Letter, Memory>
        requires holds { Holds (program.now, self.old) }
        requires next { (c : AnyName) × (next (known_of (program.now, self.old)) ≡ Some (Send c)) }
        ensures ok { IfOk result (λ letter. MakesSend program.now self.old self.new letter) }
        ensures err { IfErr result (λ _. IsUnchanged self.old self.new) }
    {
        self.reserve_note()?;
        let (channel, noted, parcel) = self.send_parts(alloc, program)?;
        Ok(self.send_off(program, channel, noted, parcel))
    }

    /// Room for a receive, and the variable that it binds.
    pub(crate) fn prepare(&mut self, program: &Program) -> Result<Slot, Memory>
        requires holds { Holds (program.now, self.old) }
        requires next { (c : AnyName) × (next (known_of (program.now, self.old)) ≡ Some (Recv c)) }
        ensures slot { IfOk result (λ slot. Receives program.now self.new.task slot) }
        ensures room { IfOk result (λ _. IsReady self.new) }
        ensures same { IsUnchanged self.old self.new }
    {
        self.make_ready()?;
        self.task.slot(program)
    }

    /// Makes a receive, for which there is room, or keeps what the last round sent.
    pub(crate) fn make_receive(&mut self, program: &Program, slot: Slot, letter: Letter)
        requires holds { Holds (program.now, self.old) }
        requires for_it { IsFor (parcel_as (program.now, letter)) (known_of (program.now, self.old)) }
        requires slot { Receives program.now self.old.task slot }
        requires room { IsReady self.old }
        ensures { IsMade program.now self.old self.new (after_receive (known_of (program.now, self.old)) (parcel_as (program.now, letter))) (received letter) }
    {
        if letter.round < self.limit {
            self.receive_now(program, slot, letter);
        } else {
            self.keep_late(program, letter);
        }
    }

    fn receive_now(&mut self, program: &Program, slot: Slot, letter: Letter)
        requires holds { Holds (program.now, self.old) }
        requires for_it { IsFor (parcel_as (program.now, letter)) (known_of (program.now, self.old)) }
        requires slot { Receives program.now self.old.task slot }
        requires room { IsReady self.old }
        requires early { letter.round < self.old.limit }
        ensures { IsMade program.now self.old self.new (after_receive (known_of (program.now, self.old)) (parcel_as (program.now, letter))) (received letter) }
    {
        let Letter {
            channel,
            value,
            round,
            ..
        } = letter;
        let Slot { name, next } = slot;
        self.task.accept(program, Bind { name, value }, next);
        self.time = self.time.max(round) + 1;
        note(&mut self.notes, self.time, Deed::Recv(channel));
    }

    fn keep_late(&mut self, program: &Program, letter: Letter)
        requires holds { Holds (program.now, self.old) }
        requires for_it { IsFor (parcel_as (program.now, letter)) (known_of (program.now, self.old)) }
        requires late { self.old.limit ≤ letter.round }
        ensures { IsMade program.now self.old self.new (after_receive (known_of (program.now, self.old)) (parcel_as (program.now, letter))) (received letter) }
    {
        let Letter { channel, value, .. } = letter;
        self.time = self.limit;
        self.late = Some(Late { channel, value });
    }
}
