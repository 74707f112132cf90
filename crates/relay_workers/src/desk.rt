//! The desk that a session asks which is served by a thread of its own.

ghost use Rattle.std.specs.Prelude.{◌≡◌, List, Option, None, IfSome, option_map};
ghost use Rattle.relay_admin.specs.declared.admin.command.Command.TheVariants as commands;
ghost use Rattle.relay_admin.specs.admin.Command.{end_of};
ghost use Rattle.relay_admin.specs.admin.Reply.{Exchange, Exchanges, HasAskedId, Looks, LooksAtTarget};
ghost use Rattle.relay_admin.specs.admin.Reply.{answer_of};
ghost use Rattle.relay_admin.specs.admin.Shown.{particulars_of};
ghost use Rattle.relay_admin.specs.admin.ShownTarget.{facts_of};

use relay_admin::{Command, DeskAnswer, Shown, ShownTarget, TargetOrder};
use std::alloc::Global;

/// What a session asks: once for each `List`, `Totals`, `CloseConn`, `DrainConn`, `DeadlineOf`,
/// `Show`, `ShowAll`, `Reload`, `Finish`, `Targets` and `SetTarget`, in the order of the lines, and for
/// nothing else. After `ShowAll` it is asked for a look at each of the ids, after `Targets` for one at
/// each of the targets.
pub trait Desk {
    // The questions so far with their answers, where the desk still tells them.
    ghost exchanges: { Self → Option (List Exchange) };

    /// The ids of all connections and listeners, rising: `Ids` or `NoMemory`.
    fn ids(&mut self, alloc: Global) -> DeskAnswer
        ensures { Exchanges (exchanges self.old) (exchanges self.new)
            commands.List (answer_of result) };

    /// The bytes copied up and down so far: `Totals`.
    fn totals(&mut self) -> DeskAnswer
        ensures { Exchanges (exchanges self.old) (exchanges self.new)
            commands.Totals (answer_of result) };

    /// Closes the connection or listener with this id.
    fn close(&mut self, id: u64) -> DeskAnswer
        ensures { Exchanges (exchanges self.old) (exchanges self.new)
            (commands.CloseConn id) (answer_of result) };

    /// Drains the connection or listener with this id: what was begun on it ends as it would,
    /// nothing new is begun, and a close still works.
    fn drain(&mut self, id: u64) -> DeskAnswer
        ensures { Exchanges (exchanges self.old) (exchanges self.new)
            (commands.DrainConn id) (answer_of result) };

    /// Sets the deadline of both directions to `after_ms` milliseconds from now, 0 being expired at
    /// once and a moment past the greatest `u64` the greatest; or, at `None`, to none.
    fn deadline(&mut self, alloc: Global, id: u64, after_ms: Option<u32>) -> DeskAnswer
        ensures { Exchanges (exchanges self.old) (exchanges self.new)
            (commands.DeadlineOf id after_ms) (answer_of result) };

    /// What is known of the connection or listener with this id: `Shown`, `Unknown` or `NoMemory`.
    fn show(&mut self, id: u64) -> DeskAnswer
        ensures told { Exchanges (exchanges self.old) (exchanges self.new)
            (commands.Show id) (answer_of result) }
        ensures asked { HasAskedId (commands.Show id) (answer_of result) };

    /// The ids of all connections and listeners, rising, each of which is then looked at: `Ids` or
    /// `NoMemory`.
    fn ids_to_show(&mut self, alloc: Global) -> DeskAnswer
        ensures { Exchanges (exchanges self.old) (exchanges self.new)
            commands.ShowAll (answer_of result) };

    /// What is known of the connection or listener with this id, if there is one by now.
    fn look(&mut self, id: u64) -> Option<Shown>
        ensures told { Looks (exchanges self.old) (exchanges self.new)
            id (option_map (λ seen. particulars_of seen) result) }
        ensures asked { IfSome result (λ seen. seen.id ≡ id) };

    /// Puts the rules in force that their file has now: `Verdict`, `CannotRead`, `CannotListen`,
    /// `NoMemory`, `Device`, or `Closed` where the relay finishes. Nothing changes but by
    /// `Verdict::Rules`.
    fn reload(&mut self, alloc: Global) -> DeskAnswer
        ensures { Exchanges (exchanges self.old) (exchanges self.new)
            commands.Reload (answer_of result) };

    /// Takes nobody more, and ends the relay once its connections have ended, or so many
    /// milliseconds are over: `Fine`. Of several such questions the last counts.
    fn finish(&mut self, after_ms: u64) -> DeskAnswer
        ensures { Exchanges (exchanges self.old) (exchanges self.new)
            (commands.Finish after_ms) (answer_of result) };

    /// The numbers of all targets of the rules that are served, each of which is then looked at: `Ids`
    /// or `NoMemory`.
    fn targets_to_show(&mut self, alloc: Global) -> DeskAnswer
        ensures { Exchanges (exchanges self.old) (exchanges self.new)
            commands.Targets (answer_of result) };

    /// What is known of the target with this number, if there is one by now.
    fn look_at_target(&mut self, number: u64) -> Option<ShownTarget>
        ensures told { LooksAtTarget (exchanges self.old) (exchanges self.new)
            number (option_map (λ seen. facts_of seen) result) }
        ensures asked { IfSome result (λ seen. seen.number ≡ number) };

    /// Sets of a target whether it gets clients: `Fine`, `UnknownRule`, `UnknownTarget` or `NoMemory`.
    fn set_target(&mut self, order: TargetOrder) -> DeskAnswer
        ensures { Exchanges (exchanges self.old) (exchanges self.new)
            (commands.SetTarget order) (answer_of result) };
}

/// Asks the desk what a command asks.
pub(crate) fn ask<D: Desk>(alloc: Global, desk: &mut D, command: &Command) -> DeskAnswer
    requires { end_of command.now ≡ None }
    ensures told { Exchanges (D.exchanges desk.old) (D.exchanges desk.new)
        command.now (answer_of result) }
    ensures asked { HasAskedId command.now (answer_of result) }
{
    match *command {
        Command::List => desk.ids(alloc),
        Command::Totals => desk.totals(),
        Command::CloseConn(id) => desk.close(id),
        Command::DrainConn(id) => desk.drain(id),
        Command::DeadlineOf(id, after_ms) => desk.deadline(alloc, id, after_ms),
        Command::Show(id) => desk.show(id),
        Command::ShowAll => desk.ids_to_show(alloc),
        Command::Reload => desk.reload(alloc),
        Command::Finish(after_ms) => desk.finish(after_ms),
        Command::Targets => desk.targets_to_show(alloc),
        Command::SetTarget(order) => desk.set_target(order),
        Command::Quit | Command::Stop => unreachable!(),
    }
}
