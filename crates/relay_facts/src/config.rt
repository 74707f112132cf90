//! What a relay is asked to be.

ghost use Rattle.std.specs.Prelude.{◌≡◌, ◌≢◌, IfOk, IfErr, IfSome, codes, is_some, true};
ghost use Rattle.relay_admin.specs.ServeFault.{IsFileFault};
ghost use Rattle.std.specs.Arc.{arc_value};
ghost use Rattle.relay_admin.specs.rules.Verdict.{verdict_line};
ghost use Rattle.relay_facts.specs.Config.{AreServed, IsCapacity, IsLogOf, IsOfFile, NamesNoAdmin};
ghost use Rattle.relay_facts.specs.Config.{ServesRule, log_format};
ghost use Rattle.relay_facts.specs.Safeguards.{safeguards_of};
ghost use Rattle.relay_facts.specs.Source.{SaysNoSettings};
ghost use Rattle.relay_settings.specs.Listeners.{further_listeners};
ghost use Rattle.relay_settings.specs.Settings.{AreInForce};
ghost use Rattle.relay_admin.specs.declared.serve_fault.ServeFault.{ServeFault};

use crate::host_answers::Answers;
use crate::safeguards::Safeguards;
use crate::served_rule;
use crate::served_rule::ServedRule;
use crate::source::said_by;
use arrayvec::ArrayString;
use base_types::OutOfMemory;
use log_writer::Log;
use relay_admin::{ServeFault, Verdict};
use relay_core::Capacity;
use relay_log::format::Format;
use relay_settings::{Asked, Said, SaidRule, Settings, further_listeners, in_force};
use std::alloc::Global;
use std::fs::Files;
use std::sync::Arc;
use std::thread::Threads;

/// How a relay was started, to which a reload compares what its file says then.
#[derive(Drop)]
pub struct Start {
    pub asked: Asked,
    /// The settings that its file said.
    pub file: Settings,
}

/// What a relay is asked to be, in memory of its own.
#[derive(Drop)]
pub struct Config {
    /// None of them has a listener yet.
    pub rules: Vec<Arc<ServedRule>>,
    pub start: Start,
    /// The settings in force.
    pub settings: Settings,
    pub capacity: Capacity,
    /// How many addresses its rules have beyond the first of each.
    pub further: u32,
    pub safeguards: Safeguards,
    /// Where its lines go. Who wants them written starts the log's thread.
    pub log: Option<Arc<Log>>,
}

// How the lines of a log are written, by what a configuration says of it.
fn log_format(said: Option<relay_config::Format>) -> Format
    ensures { result ≡ log_format said }
{
    match said {
        Some(relay_config::Format::Json) => Format::Json,
        Some(relay_config::Format::Text) | None => Format::Text,
    }
}

// The log that settings ask for, if they do.
fn log_of(alloc: Global, settings: &Settings) -> Result<Option<Arc<Log>>, OutOfMemory>
    ensures some { IfOk result (λ log. is_some log ≡ is_some settings.now.log) }
    ensures format { IfOk result (λ log. IfSome log (IsLogOf settings.now)) }
{
    if settings.log.is_none() {
        return Ok(None);
    }
    let log = Arc::new(alloc, Log::new(alloc, log_format(settings.log_format)))?;
    Ok(Some(log))
}

// The account of a rule.
fn served_rule(alloc: Global, rule: &SaidRule, loops: usize) -> Result<Arc<ServedRule>, OutOfMemory>
    ensures { IfOk result (λ served. ServesRule rule.now.rule loops (arc_value served)) }
{
    let said = served_rule::Said::of(alloc, rule, None, &Answers::none(alloc))?;
    ServedRule::new(alloc, said, loops)
}

// The accounts of rules, in their order, in a relay with so many loops. None of them has a listener
// yet.
fn served_rules(
    alloc: Global,
    rules: &[SaidRule],
    loops: usize,
) -> Result<Vec<Arc<ServedRule>>, ServeFault>
    ensures served { IfOk result (λ all. AreServed rules.now loops all.items) }
    ensures faults { IfErr result (λ fault. fault ≡ ServeFault.Memory) }
{
    let mut all = Vec::new(alloc);
    for rule in rules {
        all.push(served_rule(alloc, rule, loops)?)?;
    }
    Ok(all)
}

// The settings in force, which name an admin socket.
#[tactic(auto, using(crate::proofs::FileFaults::of_memory, crate::proofs::FileFaults::of_bad))]
fn settings_in_force(alloc: Global, asked: &Asked, file: &Settings) -> Result<Settings, ServeFault>
    ensures in_force { IfOk result (AreInForce asked.now.words file.now) }
    ensures admin { IfOk result (λ settings. is_some settings.admin ≡ true) }
    ensures missing { IfErr result (λ fault. fault ≢ ServeFault.Memory
        → NamesNoAdmin asked.now.words file.now) }
    ensures faults { IfErr result (λ fault. IsFileFault fault) }
{
    let Ok(settings) = in_force(alloc, &asked.words, file) else {
        return Err(ServeFault::Memory);
    };
    if settings.admin.is_some() {
        return Ok(settings);
    }
    Err(ServeFault::BadRules(no_admin()))
}

// The verdict on a configuration that names no admin socket, where no option does.
fn no_admin() -> Verdict
    ensures { verdict_line result
        ≡ codes "bad config: admin is missing, and no --admin is given\n" }
{
    match ArrayString::from("admin is missing, and no --admin is given") {
        Ok(why) => Verdict::BadConfig(why),
        Err(_) => Verdict::BadConfig(ArrayString::new()),
    }
}

impl Config {
    /// As a start asks for, with what its file says now. The faults are `RulesFile` or `ConfigFile`,
    /// where the file can't be opened or read, `BadRules`, also where nobody names an admin socket,
    /// and `Memory`.
    pub fn read<R: Files + Threads>(
        rt: &R,
        alloc: Global,
        asked: Asked,
    ) -> Result<Config, ServeFault>
        ensures asked { IfOk result (λ config. config.start.asked ≡ asked) }
        ensures rules { IfOk result (λ config. SaysNoSettings asked.source config.start.file) }
        ensures served { IfOk result (IsOfFile asked.source) }
        ensures in_force { IfOk result (λ config.
            AreInForce asked.words config.start.file config.settings) }
        ensures admin { IfOk result (λ config. is_some config.settings.admin ≡ true) }
        ensures capacity { IfOk result (λ config. IsCapacity config.settings config.capacity) }
        ensures safeguards { IfOk result (λ config.
            config.safeguards ≡ safeguards_of config.settings) }
        ensures log { IfOk result (λ config. is_some config.log ≡ is_some config.settings.log) }
        ensures format { IfOk result (λ config. IfSome config.log (IsLogOf config.settings)) }
        ensures faults { IfErr result (λ fault. IsFileFault fault) }
    {
        let Said { settings, rules } = said_by(rt, alloc, &asked.source)?;
        let start = Start {
            asked,
            file: settings,
        };
        config_of(rt, alloc, start, rules.as_slice())
    }
}

// That of a start whose file says these rules.
#[tactic(auto, using(crate::proofs::FileFaults::of_memory))]
fn config_of<R: Threads>(
    rt: &R,
    alloc: Global,
    start: Start,
    rules: &[SaidRule],
) -> Result<Config, ServeFault>
    ensures start { IfOk result (λ config. config.start ≡ start) }
    ensures served { IfOk result (λ config.
        AreServed rules.now config.capacity.loops.count config.rules.items) }
    ensures further { IfOk result (λ config. config.further ≡ further_listeners rules.now) }
    ensures in_force { IfOk result (λ config.
        AreInForce start.asked.words start.file config.settings) }
    ensures admin { IfOk result (λ config. is_some config.settings.admin ≡ true) }
    ensures capacity { IfOk result (λ config. IsCapacity config.settings config.capacity) }
    ensures safeguards { IfOk result (λ config. config.safeguards ≡ safeguards_of config.settings) }
    ensures log { IfOk result (λ config. is_some config.log ≡ is_some config.settings.log) }
    ensures format { IfOk result (λ config. IfSome config.log (IsLogOf config.settings)) }
    ensures faults { IfErr result (λ fault. IsFileFault fault) }
{
    let settings = settings_in_force(alloc, &start.asked, &start.file)?;
    let further = further_listeners(rules);
    let capacity = settings.capacity(rt);
    let safeguards = Safeguards::of(&settings);
    let rules = served_rules(alloc, rules, capacity.loops.count)?;
    let log = log_of(alloc, &settings)?;
    Ok(Config {
        rules,
        start,
        settings,
        capacity,
        further,
        safeguards,
        log,
    })
}
