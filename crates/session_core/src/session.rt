//! Sessions.

ghost use Rattle.std.specs.Prelude.{◌≡◌, ◌≢◌, Err, IfOk, IfErr, OnErr, option_copied, option_map};
ghost use Rattle.session_core.specs.declared.error.SessionError.{SessionError};
ghost use Rattle.session_core.specs.declared.error.SessionError.TheVariants as errors;
ghost use Rattle.session_core.specs.Courses.{reading_of};
ghost use Rattle.session_core.specs.Keeping.{Steps, is_any_ahead, is_staying, kept_from, plain, progress_in};
ghost use Rattle.session_core.specs.Sessions.{Refuses, connecting, accepting, ended, open_course, state_of};

use crate::action::Action;
use crate::controls::Controls;
use crate::counts::Counts;
use crate::course::Course;
use crate::error::SessionError;
use crate::event::Event;
use crate::heard::Heard;
use crate::machine::Machine;
use crate::pace::Pace;
use crate::phase::{Greeter, Stage};
use crate::progress::{Progress, any_ahead};
use crate::state::State;
use crate::stay::Stay;
use known_state::Known;
use learner::Fault;
use peers_hello::Hello;
use std::alloc::Global;
use std::marker::Model;
use table_types::{Items, Memory, Moment, Name, Roster, Version};
use tolerant_intake::{PassedOver, Reader};

/// A session between this node and another peer (HAProxy, doc/peers-v2.0.txt). It does no I/O itself: at each event it
/// returns the actions that its caller performs, in order.
///
/// The caller answers these actions in the order in which it received them, before the next `Bytes` or `Turn`:
///
/// | Action | Answer |
/// |---|---|
/// | `Copy` | `Copied`, or `Nothing` if the table has nothing to teach |
/// | `Teach` | `Written` |
/// | `Ack` | `Settled`, or `Refused` if the number is above every number taught |
///
/// The caller performs the actions before a `Close` or a `Part` too, but doesn't answer them. `End`, `ReadFault` and
/// `WriteFault` may happen whenever the session isn't over; `Tick`, `Ask` and `CaughtUp` whenever `Turn` may.
///
/// A session is kept in one of two manners. A *plain* one is made by `connect` or `accept`; its events alone decide what it does.
/// One that *stays* is made by `stay`, for as long as its connection lasts. It requests no resync by itself, leaves the beginning of
/// a resync to its turns, and copies, in a resync, each table's rows up to the session's bound in it. It adds what depends on the
/// clock:
///
/// - At a tick, it sends a heartbeat if it has sent nothing for 3 s, and closes if it has received nothing for 10 s.
/// - Once a batch is written, it counts as acknowledged if its last number is the one that the remote peer acknowledged
///   last on this connection.
/// - At a tick, it leaves each table that the remote peer has never acknowledged and of which a batch, copied at least 2 s
///   ago, is still out. From then on resyncs end as partial. It forgets the names that it has taught, which the remote peer
///   may have dropped.
/// - It copies no batch of a table that stores the server's name while the first one of another such table is out.
/// - An acknowledgement that the table refuses settles nothing, unless its number is above every one taught on this
///   connection, which ends the session.
/// - It begins a requested resync at a turn, and not within a second of the one before. It pushes nothing in the first
///   300 ms.
///
/// The moments of all calls are of one clock.
#[derive(Drop)]
pub struct Session {
    alloc: Global,
    machine: Machine,
    /// What it remembers for as long as it stays: on the heap, since a session moves from call to call.
    stay: Option<Box<Stay>>,
}

impl Model for Session {
    ghost use Rattle.session_core.specs.Keeping.{AreKeptAs, KeptSession, is_staying, manner_of, seen_as};
    ghost use Rattle.session_core.specs.Sessions.{phase_of};

    ghost Value = { KeptSession };

    ghost view = { λ s. seen_as s.machine s.stay };

    ghost invariant = { λ s. AreKeptAs (is_staying (manner_of s.stay)) (phase_of s.machine.stage s.machine.course) };
}

impl Session {
    /// Returns a session for the side that opens the connection and sends `hello`. It starts as `New` and awaits
    /// `Opened`. `up_to_date` says whether this node has every row itself: if so, it ends the resyncs that it teaches
    /// with resync finished, otherwise with resync partial. Fails with `Memory` if memory runs out.
    pub fn connect(
        alloc: Global,
        hello: Hello,
        roster: Roster,
        up_to_date: bool,
    ) -> Result<Session, Memory>
        ensures { IfOk result (λ session. session ≡ plain (connecting hello roster up_to_date)) }
    {
        let course = Course::new(alloc, roster.copy(alloc)?, up_to_date)?;
        let known = Known::fresh(alloc, roster)?;
        Ok(Session {
            alloc,
            machine: Machine {
                stage: Stage::New(hello),
                course,
                known,
                fault: None,
                confirmed: false,
                version: None,
                fell_back: false,
                heard: Heard::none(),
            },
            stay: None,
        })
    }

    /// Returns a session for the side that accepts the connection: this node is `own` and accepts `peers`. It starts as
    /// `Hello` and receives no `Opened`. `up_to_date` is as for `connect`. Fails with `Memory` if memory runs out.
    pub fn accept(
        alloc: Global,
        own: Name,
        peers: Vec<Name>,
        roster: Roster,
        up_to_date: bool,
    ) -> Result<Session, Memory>
        ensures { IfOk result (λ session. session ≡ plain (accepting own peers.items roster up_to_date)) }
    {
        let course = Course::new(alloc, roster.copy(alloc)?, up_to_date)?;
        let known = Known::fresh(alloc, roster)?;
        let greeter = Greeter::Accepts {
            own,
            peers: Items::new(peers),
        };
        Ok(Session {
            alloc,
            machine: Machine {
                stage: Stage::Hello(greeter, Vec::new(alloc)),
                course,
                known,
                fault: None,
                confirmed: false,
                version: None,
                fell_back: false,
                heard: Heard::none(),
            },
            stay: None,
        })
    }

    /// Returns the session as one that stays, from `now` on; its reader then is a tolerant one. Fails with `Memory` if memory runs out.
    /// The laws about sessions that stay speak of one that was new.
    pub fn stay(self, now: Moment) -> Result<Session, Memory>
        ensures { IfOk result (λ session. session ≡ kept_from now self) }
    {
        let Session {
            alloc,
            mut machine,
            ..
        } = self;
        let pace = Pace::new(alloc, machine.known.roster(), now.milliseconds())?;
        let counts = Counts::none();
        let stay = Box::new(alloc, Stay { pace, counts })?;
        machine.course = machine.course.stay();
        Ok(Session {
            alloc,
            machine,
            stay: Some(stay),
        })
    }

    /// Returns whether the session stays.
    pub fn stays(&self) -> bool
        ensures { result ≡ is_staying self.now.manner }
    {
        self.stay.is_some()
    }

    /// Returns the state of the session.
    pub fn state(&self) -> State
        ensures { result ≡ state_of self.now.session.phase }
    {
        self.machine.state()
    }

    /// Returns what is known of the remote peer as a learner, as the lessons written so far leave it.
    pub fn known(&self) -> &Known
        ensures { result.now ≡ self.now.session.known }
    {
        &self.machine.known
    }

    /// Returns the fault in the remote peer's messages that ended the session, if one did. After `Memory` it is `None`
    /// too.
    pub fn fault(&self) -> Option<Fault>
        ensures { result ≡ self.now.session.fault }
    {
        self.machine.fault
    }

    /// Returns whether the session has asked to send resync confirmed.
    pub fn confirmed(&self) -> bool
        ensures { result ≡ self.now.session.confirmed }
    {
        self.machine.confirmed
    }

    /// Returns the version that both peers speak, as the hello says. It is `None` until the hello is done, and for ever if the
    /// hello is refused.
    pub fn version(&self) -> Option<Version>
        ensures { result ≡ self.now.session.version }
    {
        self.machine.version
    }

    /// Returns whether the session fell back: its own hello said version 2.1, and the remote peer answered with status 502.
    pub fn fell_back(&self) -> bool
        ensures { result ≡ self.now.session.fell_back }
    {
        self.machine.fell_back
    }

    /// Returns how often the remote peer has sent each control message.
    pub fn controls(&self) -> Controls
        ensures { result ≡ self.now.heard.controls }
    {
        self.machine.heard.controls
    }

    /// Returns how often something that the remote peer sent was passed over, for each cause. Only a session that stays passes anything
    /// over.
    pub fn passed_over(&self) -> PassedOver
        ensures { result ≡ self.now.heard.passed_over }
    {
        self.machine.heard.passed_over
    }

    /// Returns what reads the remote peer's messages, and so what that peer has defined, while the session is open.
    pub fn reader(&self) -> Option<&Reader>
        ensures { option_copied result ≡ option_map reading_of (open_course self.now.session.phase) }
    {
        self.machine.reader()
    }

    /// Returns how much the session asked for since it began to stay; a plain session counts nothing.
    pub fn counts(&self) -> Counts
        ensures { result ≡ self.now.counts }
    {
        match &self.stay {
            None => Counts::none(),
            Some(stay) => stay.counts,
        }
    }

    /// Returns what was taught of each table and acknowledged since the session began to stay, in roster order; of a plain session nothing.
    pub fn progress(&self) -> &[Progress]
        ensures { result.now ≡ progress_in self.now.manner }
    {
        match &self.stay {
            None => &[],
            Some(stay) => stay.pace.progress.as_slice(),
        }
    }

    /// Returns whether an acknowledgement that was passed on had a number above every one copied from its table since the session stays.
    pub fn is_ahead(&self) -> bool
        ensures { result ≡ is_any_ahead self.now.manner }
    {
        any_ahead(self.progress())
    }

    /// Returns the actions to perform at `event`, in order. The moment makes no difference to a plain session.
    ///
    /// Refuses with `Ended` if the session was over, with `Unasked` if the event can't happen in its state, and with
    /// `Memory` if memory runs out. The session is then over and returns no action; all else that can be read of it stays
    /// as it was.
    pub fn on(&mut self, event: Event, now: Moment) -> Result<Vec<Action>, SessionError>
        ensures steps { IfOk result (λ acts. Steps self.old now event acts.items self.new) }
        ensures refused { IfErr result (λ e. Refuses self.old.session.phase event e) }
        ensures exactly { (e : SessionError) → e ≢ errors.Memory → Refuses self.old.session.phase event e → result ≡ Err e }
        ensures ended { OnErr result (self.new ≡ record self.old { session = ended self.old.session }) }
        ensures stays { is_staying self.new.manner ≡ is_staying self.old.manner }
    {
        match &mut self.stay {
            None => self.machine.on(self.alloc, event),
            Some(stay) => stay.on(&mut self.machine, self.alloc, event, now.milliseconds()),
        }
    }
}
