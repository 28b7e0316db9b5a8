//! What bans, configurations and stops order, as the jobs with their commands, by the rules for actions.

use crate::rows::same;
use f2b_base::{
    ActionDef, Addr, Ban, BanRule, DateSpec, Defs, Family, JailDef, Job, NoMemory, Outcome, Seq,
    Text, Until,
};
use f2b_model::{Happening, JailBans, LaneHappening};
use lane_moves::LaneBook;
use std::alloc::Global;
use std::process::Abort;
use std::test::Fail;

/// A ban of 192.0.2.1 for ten minutes.
pub(crate) const SHORT: Ban = Ban {
    serial: 1,
    addr: Addr::V4(0xc000_0201),
    begin: 1000,
    until: Until::At(1600),
    count: 2,
    failures: 5,
};

/// A ban of 2001:db8::1 that never ends.
pub(crate) const ENDLESS: Ban = Ban {
    serial: 2,
    addr: Addr::V6(0x2001_0db8_0000_0000_0000_0000_0000_0001),
    begin: 1200,
    until: Until::Never,
    count: 0,
    failures: 3,
};

/// A command of an action, which begins with a word.
fn command(alloc: Global, word: &str, rest: &str) -> Result<Text, NoMemory> {
    Ok(Text::from(format!(in alloc; "{word} {rest}")?))
}

/// An action that starts and stops, and has no other command.
fn bare(alloc: Global, family: Family, word: &str) -> Result<ActionDef, NoMemory> {
    Ok(ActionDef {
        name: Text::from_str(alloc, "nft")?,
        family,
        start: command(alloc, word, "start <family>")?,
        stop: command(alloc, word, "stop <family>")?,
        ban: Text::new(alloc),
        unban: Text::new(alloc),
        check: Text::new(alloc),
        timeout: 60,
    })
}

const BAN: &str = "ban <ip> <family> <failures> <time> <bantime> <bancount>:<matches>";

/// An action whose commands begin with a word.
fn action(alloc: Global, family: Family, word: &str) -> Result<ActionDef, NoMemory> {
    let ban = command(alloc, word, BAN)?;
    let unban = command(alloc, word, "unban <ip>")?;
    let check = Text::from_str(alloc, "test -e /x <family>")?;
    let bare = bare(alloc, family, word)?;
    Ok(ActionDef {
        ban,
        unban,
        check,
        ..bare
    })
}

/// Actions whose commands begin with a word.
fn actions(alloc: Global, families: &[Family], word: &str) -> Result<Seq<ActionDef>, NoMemory> {
    let mut actions = Seq::new(alloc);
    for &family in families {
        actions.push(action(alloc, family, word)?)?;
    }
    Ok(actions)
}

/// A jail with those actions.
fn jail_of(alloc: Global, name: Text, actions: Seq<ActionDef>) -> JailDef {
    JailDef {
        name,
        watches: Seq::new(alloc),
        zone: 0,
        date: DateSpec::Default,
        pref: None,
        fail: Seq::new(alloc),
        ignore_lines: Seq::new(alloc),
        ignore: Seq::new(alloc),
        findtime: 600,
        maxretry: 3,
        maxmatches: 0,
        rule: BanRule {
            base: 600,
            increment: false,
            factor: 1000,
            multipliers: Seq::new(alloc),
            maxtime: 600,
            rndtime: 0,
        },
        actions,
    }
}

/// One jail `sshd` with those actions.
fn defs_of(alloc: Global, families: &[Family], word: &str) -> Result<Defs, NoMemory> {
    let name = Text::from_str(alloc, "sshd")?;
    let actions = actions(alloc, families, word)?;
    let mut jails = Seq::new(alloc);
    jails.push(jail_of(alloc, name, actions))?;
    Ok(Defs { purge: 0, jails })
}

fn jail_bans(alloc: Global, jail: &str, bans: &[Ban]) -> Result<JailBans, NoMemory> {
    Ok(JailBans {
        jail: Text::from_str(alloc, jail)?,
        bans: Seq::from(bans.to_vec(alloc)?),
    })
}

/// The bans that are active, jail by jail.
fn held_of(alloc: Global, held: &[(&str, &[Ban])]) -> Result<Seq<JailBans>, NoMemory> {
    let mut jails = Seq::new(alloc);
    for (jail, bans) in held {
        jails.push(jail_bans(alloc, jail, bans)?)?;
    }
    Ok(jails)
}

/// A ban that begins in a jail, with the lines that led to it, or that ends.
pub(crate) enum Telling {
    Begins(&'static str, Ban, &'static str),
    Ends(&'static str, Ban),
}

fn happening(alloc: Global, telling: &Telling) -> Result<Happening, NoMemory> {
    match telling {
        Telling::Begins(jail, ban, lines) => Ok(Happening::Begins {
            jail: Text::from_str(alloc, jail)?,
            ban: *ban,
            matches: Text::from_str(alloc, lines)?,
        }),
        Telling::Ends(jail, ban) => Ok(Happening::Ends {
            jail: Text::from_str(alloc, jail)?,
            ban: *ban,
        }),
    }
}

/// Bans that begin and end, in their order.
fn happenings(alloc: Global, tellings: &[Telling]) -> Result<Seq<Happening>, NoMemory> {
    let mut told = Seq::new(alloc);
    for telling in tellings {
        told.push(happening(alloc, telling)?)?;
    }
    Ok(told)
}

/// A job: id, kind, failed tries, command.
fn job_line(alloc: Global, job: &Job) -> Result<String, NoMemory> {
    let id = job.id;
    let kind = job.kind;
    let tries = job.tries;
    let text = job.text.as_str();
    Ok(format!(in alloc; "{id} {kind:?} {tries} {text}\n")?)
}

/// The jobs, one a line.
fn shown(alloc: Global, jobs: &[Job]) -> Result<String, NoMemory> {
    let mut out = String::new(alloc);
    for job in jobs {
        let line = job_line(alloc, job)?;
        out.push_str(line.as_str())?;
    }
    Ok(out)
}

/// The jobs are these, one a line.
fn expect_jobs(rt: &impl Abort, alloc: Global, book: &LaneBook, want: &str) -> Result<(), Fail> {
    let jobs = book.jobs().jobs(alloc)?;
    let lines = shown(alloc, jobs.as_slice())?;
    same(rt, "jobs", lines.as_str(), want);
    Ok(())
}

/// What was told: the kind of a job whose try failed, how, and whether that was the last; `check` and how it failed; `anew`.
fn line_of(alloc: Global, happening: &LaneHappening) -> Result<String, NoMemory> {
    match happening {
        LaneHappening::TryFails {
            kind,
            outcome,
            last,
            ..
        } => Ok(format!(in alloc; "{kind:?} {outcome:?} {last}\n")?),
        LaneHappening::CheckFails { outcome, .. } => {
            Ok(format!(in alloc; "check {outcome:?}\n")?)
        }
        LaneHappening::Restarts { .. } => Ok(String::from_str(alloc, "anew\n")?),
    }
}

/// What was told, one thing a line.
fn lines_of(alloc: Global, told: &[LaneHappening]) -> Result<String, NoMemory> {
    let mut out = String::new(alloc);
    for happening in told {
        let line = line_of(alloc, happening)?;
        out.push_str(line.as_str())?;
    }
    Ok(out)
}

/// That is what was told, one thing a line.
fn expect_said(
    rt: &impl Abort,
    alloc: Global,
    told: &Seq<LaneHappening>,
    want: &str,
) -> Result<(), Fail> {
    let lines = lines_of(alloc, told.as_slice())?;
    same(rt, "told", lines.as_str(), want);
    Ok(())
}

/// The jail's lanes: the families of its actions, and the word that their commands begin with.
pub(crate) type Lanes = (&'static [Family], &'static str);

/// The bans that are active, jail by jail.
pub(crate) type Held = &'static [(&'static str, &'static [Ban])];

/// One thing that is done to a book of lanes at a moment, or that is expected of it.
pub(crate) enum Step {
    /// Bans begin and end.
    Tell(&'static [Telling], u64),
    /// The lanes that are no more asked for go down, and those that are missing come up.
    Configure(Lanes, Held, u64),
    /// A try of a job ends.
    Ended(u64, Outcome, u32),
    /// The check of a job fails.
    CheckFailed(Held, u64, Outcome, u64),
    /// All lanes go down.
    Stop(Held, u64),
    /// Whether these lanes and no others are up.
    AreJust(Lanes, bool),
    /// The id of the job to come.
    NextJob(u64),
    /// A stop was asked for, and no lane is up.
    Stopped,
    /// The check that is run before a try of a job.
    CheckOf(u64, Option<&'static str>),
    /// Its command.
    CheckText(u64, Option<&'static str>),
    /// The jobs, one a line.
    Jobs(&'static str),
    /// What was told so far, one thing a line.
    Said(&'static str),
}

/// A book of lanes, and what was told of it so far.
#[derive(Drop)]
struct Scene {
    alloc: Global,
    book: LaneBook,
    said: Seq<LaneHappening>,
}

impl Scene {
    fn configure(&mut self, lanes: Lanes, held: Held, at: u64) -> Result<(), NoMemory> {
        let defs = defs_of(self.alloc, lanes.0, lanes.1)?;
        let held = held_of(self.alloc, held)?;
        self.book.others_down(held.as_slice(), &defs, at)?;
        self.book.missing_up(held.as_slice(), &defs, at)
    }

    fn tell(&mut self, tellings: &[Telling], at: u64) -> Result<(), NoMemory> {
        let told = happenings(self.alloc, tellings)?;
        self.book.issue(told.as_slice(), at)
    }

    fn check_failed(
        &mut self,
        held: Held,
        job: u64,
        outcome: Outcome,
        at: u64,
    ) -> Result<(), NoMemory> {
        let held = held_of(self.alloc, held)?;
        self.book
            .check_failed(&mut self.said, held.as_slice(), job, outcome, at)
    }

    fn stop(&mut self, held: Held, at: u64) -> Result<(), NoMemory> {
        let held = held_of(self.alloc, held)?;
        self.book.stop(held.as_slice(), at)
    }

    /// Takes what is no expectation.
    fn take(&mut self, step: &Step) -> Result<(), NoMemory> {
        match *step {
            Step::Tell(tellings, at) => self.tell(tellings, at),
            Step::Configure(lanes, held, at) => self.configure(lanes, held, at),
            Step::Ended(job, outcome, at) => {
                self.book.ended(&mut self.said, job, outcome, u64::from(at))
            }
            Step::CheckFailed(held, job, outcome, at) => self.check_failed(held, job, outcome, at),
            Step::Stop(held, at) => self.stop(held, at),
            _ => Ok(()),
        }
    }

    /// The check that is run before a try of a job.
    fn check_of(&self, job: u64) -> Option<&str> {
        let lane = self.book.check_of(job)?;
        Some(lane.action.check.as_str())
    }

    fn expect_check_text(&self, rt: &impl Abort, job: u64, want: Option<&str>) -> Result<(), Fail> {
        let text = self.book.check_text(job)?;
        same(rt, job, text_of(&text), want);
        Ok(())
    }

    fn expect_just(
        &self,
        rt: &impl Abort,
        families: &[Family],
        word: &str,
        want: bool,
    ) -> Result<(), Fail> {
        let defs = defs_of(self.alloc, families, word)?;
        same(rt, word, self.book.are_just(&defs), want);
        Ok(())
    }

    fn is_stopped(&self) -> bool {
        self.book.is_stopping() && self.book.up().is_empty()
    }

    /// Asserts what is expected.
    fn expect(&self, rt: &impl Abort, step: &Step) -> Result<(), Fail> {
        match *step {
            Step::AreJust((families, word), want) => {
                return self.expect_just(rt, families, word, want);
            }
            Step::NextJob(want) => same(rt, "next job", self.book.next_job(), want),
            Step::Stopped => same(rt, "stopped", self.is_stopped(), true),
            Step::CheckOf(job, want) => same(rt, job, self.check_of(job), want),
            Step::CheckText(job, want) => return self.expect_check_text(rt, job, want),
            Step::Jobs(want) => return expect_jobs(rt, self.alloc, &self.book, want),
            Step::Said(want) => return expect_said(rt, self.alloc, &self.said, want),
            _ => (),
        }
        Ok(())
    }
}

fn text_of(text: &Option<Text>) -> Option<&str> {
    match text {
        Some(text) => Some(text.as_str()),
        None => None,
    }
}

/// Takes these steps, one after the other.
fn play(rt: &impl Abort, alloc: Global, book: LaneBook, steps: &[Step]) -> Result<(), Fail> {
    let said = Seq::new(alloc);
    let mut scene = Scene { alloc, book, said };
    for step in steps {
        scene.take(step)?;
        scene.expect(rt, step)?;
    }
    Ok(())
}

/// The lanes of the jail, which come up with these bans at 900.
fn lanes_up(
    alloc: Global,
    families: &[Family],
    held: &[(&str, &[Ban])],
) -> Result<LaneBook, NoMemory> {
    let defs = defs_of(alloc, families, "old")?;
    let held = held_of(alloc, held)?;
    let mut book = LaneBook::new(alloc);
    book.missing_up(held.as_slice(), &defs, 900)?;
    Ok(book)
}

/// The lanes of the jail come up with these bans, and then these steps are taken.
pub(crate) fn play_up(
    rt: &impl Abort,
    alloc: Global,
    families: &[Family],
    held: &[(&str, &[Ban])],
    steps: &[Step],
) -> Result<(), Fail> {
    play(rt, alloc, lanes_up(alloc, families, held)?, steps)
}

/// Two bans begin in the jail and one in another, and one of the jail's ends.
const BANS: [Telling; 4] = [
    Telling::Begins("sshd", SHORT, ""),
    Telling::Begins("nginx", SHORT, ""),
    Telling::Begins("sshd", ENDLESS, ""),
    Telling::Ends("sshd", SHORT),
];

const TO_ONE_LANE: [Step; 2] = [
    Step::Tell(&BANS, 1000),
    Step::Jobs(
        "0 Start 0 old start inet4\n\
         1 Ban 0 old ban 192.0.2.1 inet4 5 1000 600 2:\n\
         2 Ban 0 old ban 2001:db8::1 inet6 3 1200 -1 0:\n\
         3 Unban 0 old unban 192.0.2.1\n",
    ),
];

const TO_TWO_LANES: [Step; 2] = [
    Step::Tell(&BANS, 1000),
    Step::Jobs(
        "0 Start 0 old start inet4\n\
         1 Start 0 old start inet6\n\
         2 Ban 0 old ban 192.0.2.1 inet4 5 1000 600 2:\n\
         3 Ban 0 old ban 2001:db8::1 inet6 3 1200 -1 0:\n\
         4 Unban 0 old unban 192.0.2.1\n",
    ),
];

#[test]
fn a_ban_goes_to_the_lanes_that_take_it(rt: HostRuntime) -> Result<(), Fail> {
    play_up(&rt, rt.alloc(), &[Family::Both], &[], &TO_ONE_LANE)?;
    play_up(
        &rt,
        rt.alloc(),
        &[Family::Inet4, Family::Inet6],
        &[],
        &TO_TWO_LANES,
    )
}

const IN_TWO_JAILS: Held = &[("sshd", &[SHORT]), ("nginx", &[SHORT])];

const BOTH_OLD: Lanes = (&[Family::Both], "old");

const BOTH_NEW: Lanes = (&[Family::Both], "new");

const CHANGED_ACTION: [Step; 6] = [
    Step::AreJust(BOTH_OLD, true),
    Step::Configure(BOTH_OLD, IN_TWO_JAILS, 1000),
    Step::NextJob(2),
    Step::AreJust(BOTH_NEW, false),
    Step::Configure(BOTH_NEW, IN_TWO_JAILS, 1000),
    Step::Jobs(
        "0 Start 0 old start inet4\n\
         1 Ban 0 old ban 192.0.2.1 inet4 5 1000 600 2:\n\
         2 Unban 0 old unban 192.0.2.1\n\
         3 Stop 0 old stop inet4\n\
         4 Start 0 new start inet4\n\
         5 Ban 0 new ban 192.0.2.1 inet4 5 1000 600 2:\n",
    ),
];

#[test]
fn a_changed_action_goes_down_and_comes_up(rt: HostRuntime) -> Result<(), Fail> {
    play_up(
        &rt,
        rt.alloc(),
        &[Family::Both],
        IN_TWO_JAILS,
        &CHANGED_ACTION,
    )
}

/// The lane of IPv6 is up, it has no job, and the next job is 70.
fn going_on(alloc: Global) -> Result<LaneBook, NoMemory> {
    let before = lanes_up(alloc, &[Family::Inet6], &[])?;
    let up = Seq::from(before.up().to_vec(alloc)?);
    LaneBook::of(alloc, &up, false, &Seq::new(alloc), 70)
}

const STOP_AND_FAILED_TRIES: [Step; 10] = [
    Step::Stop(&[("sshd", &[ENDLESS])], 1000),
    Step::Stopped,
    Step::Ended(70, Outcome::Status(1), 1000),
    Step::Ended(71, Outcome::Status(0), 1000),
    Step::Jobs(
        "70 Unban 1 old unban 2001:db8::1\n\
         71 Stop 0 old stop inet6\n",
    ),
    Step::Ended(70, Outcome::NotStarted, 1002),
    Step::Ended(70, Outcome::TimedOut, 1006),
    Step::Jobs("71 Stop 0 old stop inet6\n"),
    Step::Ended(71, Outcome::Status(0), 1006),
    Step::Said(
        "Unban Status(1) false\n\
         Unban NotStarted false\n\
         Unban TimedOut true\n",
    ),
];

#[test]
fn a_stop_and_failed_tries(rt: HostRuntime) -> Result<(), Fail> {
    let book = going_on(rt.alloc())?;
    play(&rt, rt.alloc(), book, &STOP_AND_FAILED_TRIES)
}
