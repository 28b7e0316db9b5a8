//! Whole configurations, with what they come to.

use crate::rows::same;
use crate::trees::{Told, is_told, read};
use f2b_base::{ActionDef, JailDef, NoMemory, WatchDef};
use jail_conf::Settings;
use std::alloc::Global;
use std::process::Abort;

const NOTE: &str = "[Definition]
actionstart = echo start <name>
actionstop = echo stop <name>
actionban = echo ban <ip> <port> <failures> <bantime>
actionunban = echo unban <ip> <port>
";

const SSHD: &str = r"[Definition]
prefregex = ^\s*\S+ sshd(?:-session)?\[[0-9]+\]: <F-CONTENT>.+</F-CONTENT>$
failregex = ^Failed \S+ for (?:invalid user )?<F-USER>.*</F-USER> from <HOST> port [0-9]+(?: ssh2)?$
    ^Invalid user <F-USER>.*</F-USER> from <HOST>(?: port [0-9]+)?$
    ^Connection closed by authenticating user <F-USER>.*</F-USER> <HOST> port [0-9]+ \[preauth\]$
ignoreregex =
";

const JAIL: &str = r#"[INCLUDES]
before = paths.conf
[DEFAULT]
ignoreip = 127.0.0.1/8 ::1
bantime  = 10m
findtime = 10m
maxretry = 5
backend = auto
usedns = warn
logencoding = auto
mode = normal
filter = %(__name__)s[mode=%(mode)s]
banaction = note
action_ = %(banaction)s[port="%(port)s"]
action = %(action_)s
[sshd]
port = ssh
logpath = %(sshd_log)s
"#;

const PATHS: &str = "[INCLUDES]
after = paths-overrides.local
[DEFAULT]
sshd_log = /var/log/auth.log
";

const WORKED: [(&str, &str); 5] = [
    ("action.d/note.conf", NOTE),
    ("filter.d/sshd.conf", SSHD),
    ("jail.conf", JAIL),
    ("jail.local", "[sshd]\nenabled = true\nmaxretry = 3\n"),
    ("paths.conf", PATHS),
];

fn most(jail: &JailDef) -> (u64, u64) {
    (jail.maxretry, jail.maxmatches)
}

fn counts(jail: &JailDef) -> (usize, usize, usize) {
    (jail.fail.len(), jail.ignore_lines.len(), jail.ignore.len())
}

fn is_as_worked(rt: &impl Abort, jail: &JailDef) {
    same(rt, "name", jail.name.as_str(), "sshd");
    same(rt, "pref", jail.pref.is_some(), true);
    same(rt, "counts", counts(jail), (3, 0, 4));
    same(rt, "findtime", jail.findtime, 600);
    same(rt, "most", most(jail), (3, 3));
    same(rt, "base", jail.rule.base, 600);
}

fn first_path(watches: &[WatchDef]) -> Option<&str> {
    let watch = watches.first()?;
    Some(watch.path.as_str())
}

fn log_is_as_worked(rt: &impl Abort, watches: &[WatchDef]) {
    same(rt, "logs", watches.len(), 1);
    same(rt, "log", first_path(watches), Some("/var/log/auth.log"));
}

fn is_worked(rt: &impl Abort, action: &ActionDef) {
    same(rt, "start", action.start.as_str(), "echo start sshd");
    let ban = "echo ban <ip> ssh <failures> <bantime>";
    same(rt, "ban", action.ban.as_str(), ban);
    same(rt, "timeout", action.timeout, 60);
}

fn action_is_as_worked(rt: &impl Abort, actions: &[ActionDef]) {
    same(rt, "actions", actions.len(), 1);
    for action in actions {
        is_worked(rt, action);
    }
}

fn jails_are_as_worked(rt: &impl Abort, jails: &[JailDef]) {
    same(rt, "jails", jails.len(), 1);
    for jail in jails {
        is_as_worked(rt, jail);
        log_is_as_worked(rt, jail.watches.as_slice());
        action_is_as_worked(rt, jail.actions.as_slice());
    }
}

fn settings_are_as_worked(rt: &impl Abort, settings: &Settings) {
    let socket = "/var/run/fail2ban/fail2ban.sock";
    same(rt, "socket", settings.socket.as_str(), socket);
    same(rt, "purge", settings.defs.purge, 86_400);
    jails_are_as_worked(rt, settings.defs.jails.as_slice());
}

fn is_read_as_worked(rt: &impl Abort, told: &Told) {
    match told {
        Ok(settings) => settings_are_as_worked(rt, settings),
        Err(_) => same(rt, "told", "refused", "read"),
    }
}

#[test]
fn reads_the_worked_tree(rt: HostRuntime) {
    is_read_as_worked(&rt, &read(rt.alloc(), &WORKED));
}

const SLOW: &str = "[Definition]\nactionban = a\n[Init]\ntimeout = 0\n";

const BAN: (&str, &str) = ("action.d/a.conf", "[Definition]\nactionban = ban\n");

const NEVER: (&str, &str) = ("action.d/slow.conf", SLOW);

const LINES: (&str, &str) = ("filter.d/f.conf", "[Definition]\nmaxlines = 2\n");

const PREFIX: (&str, &str) = ("filter.d/p.conf", "[Definition]\nprefregex = <HOST>\n");

/// Rows of the items of an enabled jail, and what is told of it.
fn are_told_of_jails(
    rt: &impl Abort,
    alloc: Global,
    rows: &[(&str, &str)],
) -> Result<(), NoMemory> {
    for &(items, want) in rows {
        let jail = format!(in alloc; "[j]\nenabled = on\n{items}\n")?;
        let files = [BAN, NEVER, LINES, PREFIX, ("jail.conf", jail.as_str())];
        is_told(rt, alloc, items, &files, want)?;
    }
    Ok(())
}

const KINDS: [(&str, &str); 25] = [
    ("", "read"),
    ("enabled = maybe", "jail.conf|j|enabled|BadBool"),
    ("ignoreself = 2", "jail.conf|j|ignoreself|BadBool"),
    ("filter = f[", "jail.conf|j|filter|BadOptions"),
    ("filter = g", "filter.d/g.conf|j|filter|MissingFile"),
    ("filter = f", "filter.d/f.conf|j|maxlines|Unsupported"),
    ("filter = p", "filter.d/p.conf|j|prefregex|BadTag"),
    ("logpath = var/log", "jail.conf|j|logpath|BadGlob"),
    ("logtimezone = CET", "jail.conf|j|logtimezone|BadZone"),
    ("datepattern = %%Q", "jail.conf|j|datepattern|BadDate"),
    ("failregex = x", "jail.conf|j|failregex|NoHost"),
    (
        "failregex = <HOST> <HOST>",
        "jail.conf|j|failregex|TwoHosts",
    ),
    ("failregex = <HOST> <CIDR>", "jail.conf|j|failregex|BadTag"),
    (
        "ignoreregex = <HOST> <HOST>",
        "jail.conf|j|ignoreregex|TwoHosts",
    ),
    ("ignoreip = 1.2.3", "jail.conf|j|ignoreip|BadAddress"),
    ("usedns = raw", "jail.conf|j|usedns|Unsupported"),
    ("findtime = 0", "jail.conf|j|findtime|BadTime"),
    ("maxretry = 1x", "jail.conf|j|maxretry|BadNumber"),
    ("bantime = 0", "jail.conf|j|bantime|BadTime"),
    (
        "bantime.overalljails = yes",
        "jail.conf|j|bantime.overalljails|Unsupported",
    ),
    ("action = a[", "jail.conf|j|action|BadOptions"),
    ("action = b", "action.d/b.conf|j|action|MissingFile"),
    ("action = a\n a[x=1]", "jail.conf|j|action|DoubleAction"),
    ("action = a\n a[actname=b]", "read"),
    ("action = slow", "action.d/slow.conf|j|timeout|BadTime"),
];

#[test]
fn tells_each_kind_of_an_item(rt: HostRuntime) -> Result<(), NoMemory> {
    are_told_of_jails(&rt, rt.alloc(), &KINDS)
}

/// Rows of a `fail2ban.conf`, a `jail.conf`, and what is told of them.
fn are_told_of_two(
    rt: &impl Abort,
    alloc: Global,
    rows: &[(&str, &str, &str)],
) -> Result<(), NoMemory> {
    for &(server, jails, want) in rows {
        let files = [("fail2ban.conf", server), ("jail.conf", jails)];
        is_told(rt, alloc, jails, &files, want)?;
    }
    Ok(())
}

const FIRST_OF_TWO: [(&str, &str, &str); 7] = [
    (
        "[Definition]\ndbpurgeage = -1\n",
        "x",
        "fail2ban.conf|Definition|dbpurgeage|BadTime",
    ),
    (
        "",
        "[j]\nenabled = on\nbantime = 0\nfindtime = x\n",
        "jail.conf|j|findtime|BadTime",
    ),
    (
        "",
        "[j]\nenabled = on\naction = a\nfilter = f\n",
        "filter.d/f.conf|j|filter|MissingFile",
    ),
    ("", "[a b]\nenabled = x\n", "jail.conf|a b||BadName"),
    (
        "",
        "[j]\nenabled = x\nfilter = f\n",
        "jail.conf|j|enabled|BadBool",
    ),
    (
        "",
        "[j]\nbantime = 0\n[k]\nenabled = on\nmaxretry = x\n",
        "jail.conf|k|maxretry|BadNumber",
    ),
    (
        "",
        "[k]\nenabled = on\nmaxretry = x\n[j]\nenabled = x\n",
        "jail.conf|k|maxretry|BadNumber",
    ),
];

#[test]
fn tells_the_first_of_two_faults(rt: HostRuntime) -> Result<(), NoMemory> {
    are_told_of_two(&rt, rt.alloc(), &FIRST_OF_TWO)
}
