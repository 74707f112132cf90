//! A rules file as a configuration. What is written is read again before it goes out, so that it says
//! the same rules, or nothing is written.
//!
//! | Status | Meaning |
//! |---|---|
//! | 0 | the configuration was printed |
//! | 1 | the text is no rules file, and the verdict on it was printed |
//! | 3 | it couldn't be written, or would not say the rules |

ghost use Rattle.std.specs.Prelude.{◌≡◌, ◌≢◌, ◌⊎◌, List, ℕ, IfOk, IfErr, IfSome, IsTrue, map};
ghost use Rattle.std.specs.Io.KnownBytes.{Appends};
ghost use Rattle.std.specs.String.{string_bytes};
ghost use Rattle.relay_admin.specs.declared.rules.verdict.Verdict.{Verdict};
ghost use Rattle.relay_admin.specs.rules.Addr.{address_of};
ghost use Rattle.relay_admin.specs.rules.Grammar.{entries_of, entry_of};
ghost use Rattle.relay_admin.specs.rules.Verdict.{IsVerdict, verdict_line};
ghost use Rattle.relay_settings.specs.Conversion.{MeansRules, nothing_said, rule_alone, rules_alone};
ghost use Rattle.relay_settings.specs.ConvertedText.{converted_text, idle_line, rule_table, short_time};
ghost use Rattle.relay_settings.specs.Meaning.{SaysAll, said_entry, said_rule_entry, settings_entry};

use crate::said::{Said, read_config};
use crate::settings::Settings;
use crate::targets::SaidRule;
use base_types::OutOfMemory;
use relay_admin::{Rule, Rules, Verdict, is_same_addr};
use relay_config::{DEFAULT_RESOLVE_MS, Fault};
use std::alloc::Global;
use std::io::Write;
use stream_base::sink::deliver_to;
use stream_base::writer_sink::WriterSink;
use target_pick::Balance;

// The text of a time, in the largest unit of which it is so many.
fn time_text(alloc: Global, ms: u32) -> Result<String, OutOfMemory>
    ensures { IfOk result (λ text. string_bytes text ≡ short_time ms) }
{
    let (count, unit) = if ms % 3_600_000 == 0 {
        (ms / 3_600_000, "h")
    } else if ms % 60_000 == 0 {
        (ms / 60_000, "m")
    } else if ms % 1_000 == 0 {
        (ms / 1_000, "s")
    } else {
        (ms, "ms")
    };
    Ok(format!(in alloc; "{count}{unit}")?)
}

// The line of an idle time; a rule that has none has no line.
fn idle_line(alloc: Global, idle_ms: Option<u32>) -> Result<String, OutOfMemory>
    ensures { IfOk result (λ line. string_bytes line ≡ idle_line idle_ms) }
{
    let Some(ms) = idle_ms else {
        return Ok(String::new(alloc));
    };
    let time = time_text(alloc, ms)?;
    let time = time.as_str();
    Ok(format!(in alloc; "idle = \"{time}\"\n")?)
}

// The table of a rule, with an empty line before it.
fn table_of(alloc: Global, rule: &Rule) -> Result<String, OutOfMemory>
    ensures { IfOk result (λ table. IfSome (rule_table (entry_of rule.now)) (λ text.
        string_bytes table ≡ text)) }
{
    let (listen, target) = (rule.listen.text(), rule.target.text());
    let (name, listen, target) = (rule.name.as_str(), listen.as_str(), target.as_str());
    let idle = idle_line(alloc, rule.idle_ms)?;
    let idle = idle.as_str();
    Ok(format!(in alloc;
        "\n[[rule]]\nname = \"{name}\"\nlisten = [{listen:?}]\ntarget = [{{ at = {target:?} }}]\n{idle}"
    )?)
}

// What is to say these rules.
fn written(alloc: Global, rules: &[Rule]) -> Result<String, OutOfMemory>
    ensures { IfOk result (λ written. IfSome (converted_text (entries_of rules.now)) (λ text.
        string_bytes written ≡ text)) }
{
    let mut text = String::from_str(
        alloc,
        "# The rules of a rules file. Options of serve have keys too.\n",
    )?;
    for rule in rules {
        let table = table_of(alloc, rule)?;
        text.push_str(table.as_str())?;
    }
    Ok(text)
}

fn is_same_rule(one: &Rule, other: &Rule) -> bool
    ensures { IsTrue result → entry_of one.now ≡ entry_of other.now }
{
    one.name.as_str() == other.name.as_str()
        && is_same_addr(&one.listen, &other.listen)
        && is_same_addr(&one.target, &other.target)
        && is_same_idle(one.idle_ms, other.idle_ms)
}

fn is_same_idle(one: Option<u32>, other: Option<u32>) -> bool
    ensures { IsTrue result → one ≡ other }
{
    match (one, other) {
        (Some(one), Some(other)) => one == other,
        (None, None) => true,
        _ => false,
    }
}

fn says_rule(said: &SaidRule, rule: &Rule) -> bool
    ensures { IsTrue result → said_rule_entry said.now ≡ rule_alone (entry_of rule.now) }
{
    said.is_alone()
        && said.has_one_listener()
        && said.limit.is_none()
        && said.source_limits.is_none()
        && said.has_plain_sockets()
        && said.has_no_lists()
        && said.checks.is_none()
        && said.has_no_senders()
        && said.has_no_names()
        && said.resolve_ms == Some(DEFAULT_RESOLVE_MS as u32)
        && said.header.is_none()
        && said.balance == Balance::RoundRobin
        && is_same_rule(&said.rule, rule)
}

fn say_rules(said: &[SaidRule], rules: &[Rule]) -> bool
    ensures { IsTrue result → map said_rule_entry said.now ≡ map rule_alone (entries_of rules.now) }
{
    match (said, rules) {
        ([], []) => true,
        ([first, said @ ..], [rule, rules @ ..]) => {
            says_rule(first, rule) && say_rules(said, rules)
        }
        _ => false,
    }
}

fn says_nothing(settings: &Settings) -> bool
    ensures { IsTrue result → settings_entry settings.now ≡ nothing_said }
{
    let has_paths = settings.admin.is_some()
        || settings.admin_mode.is_some()
        || settings.log.is_some()
        || settings.log_format.is_some()
        || settings.metrics.is_some();
    let has_sizes = settings.loops.is_some()
        || settings.pairs.is_some()
        || settings.per_rule.is_some();
    !has_paths && !has_sizes && settings.connect_ms.is_none() && settings.replaces_stale.is_none()
}

fn says_alone(said: &Said, rules: &[Rule]) -> bool
    ensures { IsTrue result → said_entry said.now ≡ rules_alone (entries_of rules.now) }
{
    says_nothing(&said.settings) && say_rules(said.rules.as_slice(), rules)
}

// The configuration that says these rules; none where what was written doesn't say them.
fn config_of(alloc: Global, rules: &[Rule]) -> Result<Option<String>, OutOfMemory>
    ensures { IfOk result (λ text. IfSome text (λ text.
        SaysAll (string_bytes text) (rules_alone (entries_of rules.now)))) }
{
    let text = written(alloc, rules)?;
    match read_config(alloc, text.as_bytes()) {
        Ok(said) if says_alone(&said, rules) => Ok(Some(text)),
        Err(Fault::Memory) => Err(OutOfMemory),
        _ => Ok(None),
    }
}

// Writes a configuration, if there is one, and gives the exit status.
fn print<W: Write>(text: &Option<String>, writer: &mut W) -> u8
    ensures known { (result ≡ 0) ⊎ (result ≡ 3) }
    ensures said { result ≡ 0 → IfSome text.now (λ text.
        Appends (W.contents writer.old) (W.contents writer.new) (string_bytes text)) }
    ensures some { result ≡ 0 → text.now ≢ None }
{
    let Some(text) = text else {
        return 3;
    };
    let mut sink = WriterSink::new(writer);
    match deliver_to(&mut sink, text.as_bytes()) {
        Ok(()) => 0,
        Err(_) => 3,
    }
}

/// Prints the configuration that says what a rules file says, or the verdict on a text that is none,
/// and gives the exit status. The only fault is want of memory: then nothing was written.
pub fn convert<W: Write>(alloc: Global, file: &[u8], writer: &mut W) -> Result<u8, OutOfMemory>
    ensures known { IfOk result (λ status. (status ≡ 0) ⊎ ((status ≡ 1) ⊎ (status ≡ 3))) }
    ensures converted { IfOk result (λ status. status ≡ 0 → (text : List ℕ)
        × MeansRules file.now text × Appends (W.contents writer.old) (W.contents writer.new) text) }
    ensures bad { IfOk result (λ status. status ≡ 1 → (verdict : Verdict) × IsVerdict file.now verdict
        × Appends (W.contents writer.old) (W.contents writer.new) (verdict_line verdict)) }
    ensures memory { IfErr result (λ fault. W.contents writer.new ≡ W.contents writer.old) }
{
    let rules = match Rules::parse(file) {
        Ok(rules) => rules,
        Err(fault) => return Ok(Verdict::Bad(fault).print(writer)),
    };
    let text = config_of(alloc, rules.as_slice())?;
    Ok(print(&text, writer))
}
