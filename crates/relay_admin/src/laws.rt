//! Laws of the grammars and of the transcripts, in the words of an operator. The bodies are empty.

ghost use Rattle.std.specs.Prelude.{◌≡◌, ◌∷◌, ◌++◌, [], codes};
ghost use Rattle.relay_admin.specs.declared.admin.command.TheConstants.{MAX_DEADLINE_MS, MAX_ID};
ghost use Rattle.relay_admin.specs.declared.admin.dialogue.TheConstants.{MAX_LINES, MAX_LINE_BYTES};
ghost use Rattle.relay_admin.specs.declared.admin.reply_text.TheConstants.{BAD_COMMAND, BUSY};
ghost use Rattle.relay_admin.specs.declared.admin.reply_text.TheConstants.{CANNOT_LISTEN, CLOSED};
ghost use Rattle.relay_admin.specs.declared.admin.reply_text.TheConstants.{CANNOT_READ, DEVICE};
ghost use Rattle.relay_admin.specs.declared.admin.reply_text.TheConstants.{DONE, DRAINING};
ghost use Rattle.relay_admin.specs.declared.admin.reply_text.TheConstants.{NO_SUCH_RULE};
ghost use Rattle.relay_admin.specs.declared.admin.reply_text.TheConstants.{NO_SUCH_TARGET};
ghost use Rattle.relay_admin.specs.declared.admin.target_order.TheConstants.{MAX_TARGET_BYTES};
ghost use Rattle.relay_admin.specs.declared.admin.reply_text.TheConstants.{NO_SUCH_CONNECTION};
ghost use Rattle.relay_admin.specs.declared.admin.reply_text.TheConstants.{OUT_OF_MEMORY, SHOWN_ALL};
ghost use Rattle.relay_admin.specs.declared.rules.addr.TheConstants.{MAX_ADDR_BYTES};
ghost use Rattle.relay_admin.specs.declared.rules.addr.TheConstants.{MAX_PATH_BYTES};
ghost use Rattle.relay_admin.specs.declared.rules.file.TheConstants.{MAX_BYTES, MAX_RULES};
ghost use Rattle.relay_admin.specs.declared.rules.rule.TheConstants.{MAX_IDLE_MS, MAX_NAME_BYTES};
ghost use Rattle.relay_admin.specs.admin.Later.{LastLaterIsAsAtOnce, LaterIsAsAtOnce};
ghost use Rattle.relay_admin.specs.admin.Refusal.{BadCommandsAreRefused, RepliesTellRefusals};
ghost use Rattle.relay_admin.specs.Laws.{NoRulesWithFault, OneCommandALine, OneDialogueAText};
ghost use Rattle.relay_admin.specs.Laws.{OneFault, OneLineAShow, OneLineATarget, OneListOfRules};
ghost use Rattle.relay_admin.specs.Laws.{OneRuleALine, OneTextAnAddress, ReadsItsText};

/// Two addresses are one exactly where their texts are one.
pub fn one_text_an_address()
    ensures { OneTextAnAddress }
{}

/// What `addr_of` reads of a text is the address whose text that is, and nothing where it is none's.
pub fn an_address_is_read_from_its_text()
    ensures { ReadsItsText }
{}

/// A text has one verdict: these rules and no others, or this fault and no other, and never both.
pub fn one_verdict_a_text()
    ensures line { OneRuleALine }
    ensures rules { OneListOfRules }
    ensures fault { OneFault }
    ensures either { NoRulesWithFault }
{}

/// A line spells one command at most, and a text of commands has one list of questions and one end,
/// whatever the desk answers.
pub fn one_dialogue_a_text()
    ensures line { OneCommandALine }
    ensures text { OneDialogueAText }
{}

/// A line that is answered later is answered as if at once: by the same reply, exchange and end, and
/// the session stands where it would stand. So what a session has answered is the function of its
/// lines and its desk's answers that it is where none is late.
pub fn a_late_answer_is_as_one_at_once()
    ensures line { LaterIsAsAtOnce }
    ensures last_line { LastLaterIsAsAtOnce }
{}

/// What is shown of a connection is one line, whatever path its peer has chosen: no client can make
/// one reply look like two.
pub fn a_show_is_one_line()
    ensures { OneLineAShow }
{}

/// So is what is shown of a target.
pub fn a_target_is_one_line()
    ensures { OneLineATarget }
{}

/// A reply tells its reader whether the command was carried out: of a desk's replies
/// [`reply_refuses`](crate::reply_refuses) is true of exactly those to answers that refuse.
pub fn a_reply_tells_whether_it_refuses()
    ensures answers { RepliesTellRefusals }
    ensures bad_command { BadCommandsAreRefused }
{}

/// The limits of a rules file in figures. The definitions follow the code's constants, so that this
/// alone says which they are.
pub fn the_limits_of_rules_in_figures()
    ensures bytes { MAX_BYTES ≡ 65536 }
    ensures rules { MAX_RULES ≡ 64 }
    ensures name_bytes { MAX_NAME_BYTES ≡ 16 }
    ensures path_bytes { MAX_PATH_BYTES ≡ 100 }
    ensures addr_bytes { MAX_ADDR_BYTES ≡ 105 }
    ensures idle_ms { MAX_IDLE_MS ≡ 86400000 }
{}

/// The limits of an admin session in figures, likewise.
pub fn the_limits_of_a_session_in_figures()
    ensures lines { MAX_LINES ≡ 65536 }
    ensures line_bytes { MAX_LINE_BYTES ≡ 64 }
    ensures target_bytes { MAX_TARGET_BYTES ≡ 52 }
    ensures id { MAX_ID ≡ 4503599627370494 }
    ensures deadline_ms { MAX_DEADLINE_MS ≡ 86400000 }
{}

/// The replies that are always the same, in words, each with its line feed, and the words of one
/// before the name that follows. The definitions follow the code's texts, so that this alone says
/// which they are.
pub fn the_fixed_replies_in_words()
    ensures done { DONE.now ≡ codes "ok" ++ 10 ∷ [] }
    ensures shown_all { SHOWN_ALL.now ≡ codes "end" ++ 10 ∷ [] }
    ensures bad_command { BAD_COMMAND.now ≡ codes "error 400 bad command" ++ 10 ∷ [] }
    ensures unknown { NO_SUCH_CONNECTION.now ≡ codes "error 404 no such connection" ++ 10 ∷ [] }
    ensures closed { CLOSED.now ≡ codes "error 409 closed" ++ 10 ∷ [] }
    ensures draining { DRAINING.now ≡ codes "error 409 draining" ++ 10 ∷ [] }
    ensures busy { BUSY.now ≡ codes "error 409 busy" ++ 10 ∷ [] }
    ensures device { DEVICE.now ≡ codes "error 503 device" ++ 10 ∷ [] }
    ensures unknown_rule { NO_SUCH_RULE.now ≡ codes "error 404 no such rule" ++ 10 ∷ [] }
    ensures unknown_target { NO_SUCH_TARGET.now ≡ codes "error 404 no such target" ++ 10 ∷ [] }
    ensures no_memory { OUT_OF_MEMORY.now ≡ codes "error 507 out of memory" ++ 10 ∷ [] }
    ensures cannot_read { CANNOT_READ.now ≡ codes "cannot read rules" ++ 10 ∷ [] }
    ensures cannot_listen { CANNOT_LISTEN.now ≡ codes "cannot listen " }
{}
