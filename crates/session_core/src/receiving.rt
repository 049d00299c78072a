//! How the remote peer's messages change the course of a session.

ghost use Rattle.std.specs.Prelude.{◌≡◌, ◌≢◌, ◌<◌, ◌∷◌, ◌++◌, [], List, Ok, Err, Some, None, IfOk, IfErr, IfSome, IsSome, OnOk, OnErr, length};
ghost use Rattle.learner.specs.declared.taken.Taken.{Taken};
ghost use Rattle.tolerant_intake.specs.Reading.{passed_by};
ghost use Rattle.peers_msg.specs.Spelling.{stream_of};
ghost use Rattle.session_core.specs.declared.action.Action.{Action};
ghost use Rattle.session_core.specs.declared.halt.Halt.TheVariants as halts;
ghost use Rattle.session_core.specs.Shares.{is_out};
ghost use Rattle.session_core.specs.Actions.{control_text, sends_control};
ghost use Rattle.session_core.specs.HeardCounts.{CountsBytes, TakesIn, all_counted};
ghost use Rattle.session_core.specs.Courses.{Course, AwaitsMore, course_fed, is_held, requested, acknowledged, said, message_received, is_failure, Receives, AreReceived, IsHalted, ReceivesAll, acks_sent, acks_given};

use crate::acks::ack_of;
use crate::action::{Action, only, push};
use crate::controls::Controls;
use crate::course::Course;
use crate::due::Due;
use crate::halt::Halt;
use crate::heard::Heard;
use crate::share::is_out;
use learner::Taken;
use peers_msg::{Control, Message, append};
use std::alloc::Global;
use table_types::{Items, Memory};

/// Returns the bytes of a control message.
fn control_text(alloc: Global, control: Control) -> Result<Items<u8>, Memory>
    ensures { IfOk result (λ bytes. bytes ≡ control_text control) }
{
    let mut bytes = Vec::with_capacity(alloc, 2)?;
    bytes.push(0)?;
    bytes.push(control as u8)?;
    Ok(Items::new(bytes))
}

/// Appends the action that sends a control message.
pub(crate) fn push_control(
    alloc: Global,
    actions: &mut Vec<Action>,
    control: Control,
) -> Result<(), Memory>
    ensures { OnOk result (actions.new.items ≡ actions.old.items ++ (sends_control control ∷ [])) }
{
    push(actions, Action::Send(control_text(alloc, control)?))
}

/// Returns the action that sends a control message.
pub(crate) fn only_control(alloc: Global, control: Control) -> Result<Vec<Action>, Memory>
    ensures { IfOk result (λ acts. acts.items ≡ sends_control control ∷ []) }
{
    only(alloc, Action::Send(control_text(alloc, control)?))
}

/// Returns the bytes of the messages, one after another.
fn stream_of(alloc: Global, messages: &[Message]) -> Result<Items<u8>, Memory>
    ensures { IfOk result (λ bytes. bytes ≡ stream_of messages.now) }
{
    let mut bytes = Vec::new(alloc);
    for message in messages {
        append(&mut bytes, message)?;
    }
    Ok(Items::new(bytes))
}

impl Course {
    /// Receives a request for a resync.
    fn request(&mut self, actions: &mut Vec<Action>) -> Result<(), Memory>
        ensures actions { OnOk result (actions.new.items ≡ actions.old.items ++ (requested (is_held self.old.stays self.old.shares) self.old).0) }
        ensures course { OnOk result (self.new ≡ (requested (is_held self.old.stays self.old.shares) self.old).1) }
    {
        if self.is_held() {
            self.waits = true;
            Ok(())
        } else {
            self.begin_teaching(actions)
        }
    }

    /// Receives an acknowledgement of a table of the roster.
    pub(crate) fn acknowledge(
        &mut self,
        table: u64,
        number: u32,
        actions: &mut Vec<Action>,
    ) -> Result<(), Memory>
        ensures actions { OnOk result (actions.new.items ≡ actions.old.items ++ (acknowledged (is_out table self.old.shares) self.old table number).0) }
        ensures course { OnOk result (self.new ≡ (acknowledged (is_out table self.old.shares) self.old table number).1) }
    {
        if is_out(self.shares.as_slice(), table) {
            push(actions, Action::Ack { table, number })?;
            self.due.push_back(Due::Ack(table))?;
        }
        Ok(())
    }

    /// Receives a control message.
    fn receive_control(
        &mut self,
        alloc: Global,
        control: Control,
        actions: &mut Vec<Action>,
    ) -> Result<(), Memory>
        ensures actions { OnOk result (actions.new.items ≡ actions.old.items ++ (said self.old control).0) }
        ensures course { OnOk result (self.new ≡ (said self.old control).1) }
    {
        match control {
            Control::ResyncRequest => self.request(actions),
            Control::ResyncFinished | Control::ResyncPartial => {
                push_control(alloc, actions, Control::ResyncConfirmed)
            }
            Control::ResyncConfirmed | Control::Heartbeat => Ok(()),
        }
    }

    /// Receives a message.
    fn receive(
        &mut self,
        alloc: Global,
        taken: Taken,
        actions: &mut Vec<Action>,
    ) -> Result<(), Memory>
        ensures actions { OnOk result (actions.new.items ≡ actions.old.items ++ (message_received self.old taken).0) }
        ensures course { OnOk result (self.new ≡ (message_received self.old taken).1) }
    {
        match taken {
            Taken::Row(update) => push(actions, Action::Learn(update)),
            Taken::Said(control) => self.receive_control(alloc, control, actions),
            Taken::Acked { .. } => match ack_of(&taken, self.reader.roster()) {
                Some((table, number)) => self.acknowledge(table, number, actions),
                None => Ok(()),
            },
            Taken::Passed | Taken::Failed(_) => Ok(()),
        }
    }

    /// Takes the next message; returns `None` if it is incomplete.
    fn next(&mut self) -> Result<Option<Taken>, Halt>
        ensures receives { IfOk result (λ found. IfSome found (λ taken. Receives self.old taken self.new)) }
        ensures waits { result ≡ Ok None → (self.new ≡ self.old) × AwaitsMore self.old }
        ensures halted { IfErr result (λ halt. IsHalted self.old halt) }
        ensures passed { OnErr result (passed_by self.new.tolerance ≡ passed_by self.old.tolerance) }
        ensures fewer { IfOk result (λ found. IsSome found → length self.new.intake.unread < length self.old.intake.unread) }
    {
        match self.reader.next()? {
            Some(Taken::Failed(_)) => Err(Halt::Failed),
            found => Ok(found),
        }
    }

    /// Receives the complete messages, up to the first that halts the session, counts the control messages among them, and appends
    /// what they ask for.
    fn receive_all(
        &mut self,
        alloc: Global,
        controls: &mut Controls,
        actions: &mut Vec<Action>,
    ) -> Result<(), Halt>
        ensures received { result ≢ Err halts.Memory → (given : List Action) × ReceivesAll self.old result given self.new × (actions.new.items ≡ actions.old.items ++ given) }
        ensures heard { result ≢ Err halts.Memory → (ts : List Taken) × TakesIn self.old ts (passed_by self.new.tolerance) × (controls.new ≡ all_counted ts controls.old) }
    {
        while let Some(taken) = self.next()? {
            controls.count_message(&taken);
            self.receive(alloc, taken, actions)?;
        }
        Ok(())
    }

    /// Takes in `bytes`, receives the messages that are then complete, up to the first that halts the session, counts the control
    /// messages among them, and appends what they ask for.
    fn receive_bytes(
        &mut self,
        alloc: Global,
        bytes: &[u8],
        controls: &mut Controls,
        actions: &mut Vec<Action>,
    ) -> Result<(), Halt>
        ensures heard { result ≢ Err halts.Memory → (ts : List Taken) × TakesIn (course_fed self.old bytes.now) ts (passed_by self.new.tolerance) × (controls.new ≡ all_counted ts controls.old) }
        ensures received { result ≢ Err halts.Memory → (given : List Action) × ReceivesAll (course_fed self.old bytes.now) result given self.new × (actions.new.items ≡ actions.old.items ++ given) }
    {
        self.reader.feed(bytes)?;
        self.receive_all(alloc, controls, actions)
    }

    /// Does the same as `receive_bytes`, and counts what was passed over too.
    pub(crate) fn hear(
        &mut self,
        alloc: Global,
        bytes: &[u8],
        heard: &mut Heard,
        actions: &mut Vec<Action>,
    ) -> Result<(), Halt>
        ensures heard { result ≢ Err halts.Memory → CountsBytes self.old bytes.now heard.old heard.new }
        ensures received { result ≢ Err halts.Memory → (given : List Action) × ReceivesAll (course_fed self.old bytes.now) result given self.new × (actions.new.items ≡ actions.old.items ++ given) }
    {
        let received = self.receive_bytes(alloc, bytes, &mut heard.controls, actions);
        heard.passed_over = self.reader.passed_over();
        received
    }

    /// Appends the action that sends the acknowledgements that are due, if there are any.
    pub(crate) fn send_acks(
        &mut self,
        alloc: Global,
        actions: &mut Vec<Action>,
    ) -> Result<(), Memory>
        ensures actions { OnOk result (actions.new.items ≡ actions.old.items ++ acks_given self.old) }
        ensures course { OnOk result (self.new ≡ acks_sent self.old) }
    {
        let acks = self.reader.acks()?;
        if acks.is_empty() {
            return Ok(());
        }
        push(actions, Action::Send(stream_of(alloc, acks.as_slice())?))
    }
}
