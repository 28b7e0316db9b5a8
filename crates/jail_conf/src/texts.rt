//! The texts of definitions. A text is UTF-8 by its type, and a contract is told so where the text is looked at: here each text of the
//! definitions is, once, and nothing else is done.
ghost use Rattle.std.specs.Prelude.{IsUtf8};
ghost use Rattle.f2b_model.specs.Lists.{AllOf};
ghost use Rattle.jail_conf.specs.Texts.{IsUtf8OrNone, IsUtf8Date, IsUtf8Log, IsUtf8Action, IsUtf8Jail, AreUtf8};

use f2b_base::{ActionDef, DateSpec, Defs, JailDef, Text, WatchDef};

fn see_texts(texts: &[Text])
    ensures { AllOf IsUtf8 texts.now }
{
    for text in texts {
        let _text = text.as_str();
    }
}

fn see_logs(logs: &[WatchDef])
    ensures { AllOf IsUtf8Log logs.now }
{
    for log in logs {
        let _path = log.path.as_str();
    }
}

fn see_date(date: &DateSpec)
    ensures { IsUtf8Date date.now }
{
    match date {
        DateSpec::Pattern(text) | DateSpec::AnchoredPattern(text) => {
            let _text = text.as_str();
        }
        _ => (),
    }
}

fn see_prefix(pref: &Option<Text>)
    ensures { IsUtf8OrNone pref.now }
{
    if let Some(text) = pref {
        let _text = text.as_str();
    }
}

fn see_action(action: &ActionDef)
    ensures { IsUtf8Action action.now }
{
    let _name = action.name.as_str();
    let _start = action.start.as_str();
    let _stop = action.stop.as_str();
    let _ban = action.ban.as_str();
    let _unban = action.unban.as_str();
    let _check = action.check.as_str();
}

fn see_actions(actions: &[ActionDef])
    ensures { AllOf IsUtf8Action actions.now }
{
    for action in actions {
        see_action(action);
    }
}

fn see_jail(jail: &JailDef)
    ensures { IsUtf8Jail jail.now }
{
    see_logs(jail.watches.as_slice());
    see_date(&jail.date);
    see_prefix(&jail.pref);
    see_texts(jail.fail.as_slice());
    see_texts(jail.ignore_lines.as_slice());
    see_actions(jail.actions.as_slice());
}

fn see_jails(jails: &[JailDef])
    ensures { AllOf IsUtf8Jail jails.now }
{
    for jail in jails {
        see_jail(jail);
    }
}

/// Looks at each text of the definitions. Takes no memory.
pub(crate) fn see(defs: &Defs)
    ensures { AreUtf8 defs.now }
{
    see_jails(defs.jails.as_slice());
}
