//! Each plain type copies, with ample memory, to an equal value.
use f2b_base::{
    ActionDef, Addr, Ban, BanRule, Bytes, Cidr, DateSpec, Defs, Failure, Family, FileLook, Input,
    JailDef, JailView, Job, JobKind, LaneId, NoMemory, Outcome, Past, Place, Plain, Seq, Text,
    Tree, TreeAnswer, TreeFile, Until, UpLane, View, WatchDef, WatchView, What,
};
use std::alloc::Global;
use std::fmt::Debug;
use std::process::Abort;
use std::test::Fail;

const HOST: Addr = Addr::V4(0xc000_0207);

fn text(alloc: Global, text: &str) -> Result<Text, NoMemory> {
    Text::from_str(alloc, text)
}

/// A sequence of one item, where there was memory for that.
fn one<T: Drop>(alloc: Global, item: Result<T, NoMemory>) -> Result<Seq<T>, NoMemory> {
    let mut items = Seq::new(alloc);
    items.push(item?)?;
    Ok(items)
}

/// Puts an item behind others, where there was memory for that.
fn put<T: Drop>(items: &mut Seq<T>, item: Result<T, NoMemory>) -> Result<(), NoMemory> {
    items.push(item?)
}

/// What is made empty first.
trait Filled: Drop {
    fn fill(&mut self, alloc: Global) -> Result<(), NoMemory>;
}

fn fill_up<T: Filled>(alloc: Global, mut item: T) -> Result<T, NoMemory> {
    item.fill(alloc)?;
    Ok(item)
}

impl Filled for ActionDef {
    fn fill(&mut self, _alloc: Global) -> Result<(), NoMemory> {
        self.name.push_str("nft")?;
        self.start.push_str("start")?;
        self.stop.push_str("stop")?;
        self.ban.push_str("ban <ip>")?;
        self.unban.push_str("unban <ip>")?;
        self.check.push_str("check")
    }
}

fn action(alloc: Global) -> Result<ActionDef, NoMemory> {
    let action = ActionDef {
        name: Text::new(alloc),
        family: Family::Inet6,
        start: Text::new(alloc),
        stop: Text::new(alloc),
        ban: Text::new(alloc),
        unban: Text::new(alloc),
        check: Text::new(alloc),
        timeout: 60,
    };
    fill_up(alloc, action)
}

fn rule(alloc: Global) -> BanRule {
    BanRule {
        base: -1,
        increment: true,
        factor: 1000,
        multipliers: Seq::new(alloc),
        maxtime: 600,
        rndtime: 7,
    }
}

fn watch(alloc: Global) -> Result<WatchDef, NoMemory> {
    let path = text(alloc, "/var/log/auth.log")?;
    Ok(WatchDef { path, tail: true })
}

const MASK: Cidr = Cidr {
    base: Addr::V6(1),
    bits: 128,
};

fn date(alloc: Global) -> Result<DateSpec, NoMemory> {
    Ok(DateSpec::Pattern(text(alloc, "%Y")?))
}

impl Filled for JailDef {
    fn fill(&mut self, alloc: Global) -> Result<(), NoMemory> {
        self.name.push_str("sshd")?;
        put(&mut self.watches, watch(alloc))?;
        put(&mut self.fail, text(alloc, "from <HOST>"))?;
        put(&mut self.ignore, Ok(MASK))?;
        put(&mut self.rule.multipliers, Ok(5))?;
        put(&mut self.actions, action(alloc))
    }
}

/// A jail of this form of dates, with no name, sequences or prefix yet.
fn dated(alloc: Global, date: DateSpec, pref: Text) -> JailDef {
    JailDef {
        name: Text::new(alloc),
        watches: Seq::new(alloc),
        zone: -3600,
        date,
        pref: Some(pref),
        fail: Seq::new(alloc),
        ignore_lines: Seq::new(alloc),
        ignore: Seq::new(alloc),
        findtime: 600,
        maxretry: 5,
        maxmatches: 5,
        rule: rule(alloc),
        actions: Seq::new(alloc),
    }
}

fn jail(alloc: Global) -> Result<JailDef, NoMemory> {
    let pref = text(alloc, "^sshd")?;
    let date = date(alloc)?;
    fill_up(alloc, dated(alloc, date, pref))
}

fn failure(alloc: Global) -> Result<Failure, NoMemory> {
    Ok(Failure {
        addr: HOST,
        time: 1_000,
        line: text(alloc, "bad from 192.0.2.7")?,
    })
}

fn place(alloc: Global) -> Result<Place, NoMemory> {
    Ok(Place::Pos {
        position: 3,
        head: Bytes::from_slice(alloc, &[b'a', b'b', b'\n'])?,
    })
}

const BAN: Ban = Ban {
    serial: 4,
    addr: HOST,
    begin: 1_000,
    until: Until::At(1_600),
    count: 1,
    failures: 5,
};

const PAST: Past = Past {
    addr: HOST,
    end: 900,
};

fn watch_view(alloc: Global) -> Result<WatchView, NoMemory> {
    let path = text(alloc, "/var/log/auth.log")?;
    let place = place(alloc)?;
    Ok(WatchView { path, place })
}

impl Filled for JailView {
    fn fill(&mut self, alloc: Global) -> Result<(), NoMemory> {
        self.name.push_str("sshd")?;
        put(&mut self.failures, failure(alloc))?;
        put(&mut self.bans, Ok(BAN))?;
        put(&mut self.past, Ok(PAST))?;
        put(&mut self.watches, watch_view(alloc))
    }
}

fn jail_view(alloc: Global) -> Result<JailView, NoMemory> {
    let view = JailView {
        name: Text::new(alloc),
        idle: true,
        total_failed: 9,
        total_banned: 2,
        moment: 1_000,
        failures: Seq::new(alloc),
        bans: Seq::new(alloc),
        past: Seq::new(alloc),
        watches: Seq::new(alloc),
    };
    fill_up(alloc, view)
}

impl Filled for Job {
    fn fill(&mut self, _alloc: Global) -> Result<(), NoMemory> {
        self.lane.jail.push_str("sshd")?;
        self.lane.action.push_str("nft")?;
        self.text.push_str("ban 192.0.2.7")
    }
}

fn job(alloc: Global) -> Result<Job, NoMemory> {
    let lane = LaneId {
        jail: Text::new(alloc),
        action: Text::new(alloc),
        family: Family::Inet6,
    };
    let job = Job {
        id: 8,
        lane,
        kind: JobKind::Reban,
        addr: Some(HOST),
        text: Text::new(alloc),
        timeout: 60,
        tries: 1,
        due: 1_002,
    };
    fill_up(alloc, job)
}

fn defs(alloc: Global) -> Result<Defs, NoMemory> {
    let jails = one(alloc, jail(alloc))?;
    Ok(Defs {
        purge: 86_400,
        jails,
    })
}

fn up(alloc: Global) -> Result<UpLane, NoMemory> {
    let jail = text(alloc, "sshd")?;
    let action = action(alloc)?;
    Ok(UpLane { jail, action })
}

impl Filled for View {
    fn fill(&mut self, alloc: Global) -> Result<(), NoMemory> {
        put(&mut self.defs.jails, jail(alloc))?;
        put(&mut self.up, up(alloc))?;
        put(&mut self.jails, jail_view(alloc))?;
        put(&mut self.jobs, job(alloc))
    }
}

fn view(alloc: Global) -> Result<View, NoMemory> {
    let defs = Defs {
        purge: 86_400,
        jails: Seq::new(alloc),
    };
    let view = View {
        at: 1_000,
        defs,
        stopping: true,
        up: Seq::new(alloc),
        jails: Seq::new(alloc),
        jobs: Seq::new(alloc),
        next_job: 9,
        next_ban: 5,
    };
    fill_up(alloc, view)
}

/// The item copies, where there was memory for it.
fn copies<T: Plain + PartialEq + Debug + Drop>(
    rt: &impl Abort,
    item: Result<T, NoMemory>,
) -> Result<(), NoMemory> {
    let item = item?;
    let copy = item.copy()?;
    assert_eq!(rt; &copy, &item);
    Ok(())
}

#[test]
fn a_view_copies_with_all_that_it_has(rt: HostRuntime) -> Result<(), Fail> {
    copies(&rt, view(rt.alloc()))?;
    Ok(())
}

/// The input copies.
fn input_copies(rt: &impl Abort, what: What) -> Result<(), NoMemory> {
    let input = Input {
        secs: 1_000,
        word: 7,
        what,
    };
    copies(rt, Ok(input))
}

/// What is asked of a jail, or found there.
#[derive(Clone, Copy)]
enum OfJail {
    Read,
    Ban,
    Unban,
    Attempt,
    Ignore,
    Findtime,
    Bantime,
    Maxretry,
    Idle,
}

fn read(alloc: Global, jail: Text) -> Result<What, NoMemory> {
    Ok(What::Read {
        jail,
        path: text(alloc, "/var/log/auth.log")?,
        place: place(alloc)?,
        found: one(alloc, failure(alloc))?,
    })
}

fn ban(alloc: Global, jail: Text) -> Result<What, NoMemory> {
    let addrs = one(alloc, Ok(HOST))?;
    Ok(What::Ban { jail, addrs })
}

fn ignore(jail: Text) -> What {
    let cidr = Cidr {
        base: HOST,
        bits: 32,
    };
    What::Ignore {
        jail,
        cidr,
        add: true,
    }
}

fn of_jail(alloc: Global, kind: OfJail) -> Result<What, NoMemory> {
    let jail = text(alloc, "sshd")?;
    Ok(match kind {
        OfJail::Read => read(alloc, jail)?,
        OfJail::Ban => ban(alloc, jail)?,
        OfJail::Unban => What::Unban {
            jail: Some(jail),
            addrs: None,
        },
        OfJail::Attempt => What::Attempt { jail, addr: HOST },
        OfJail::Ignore => ignore(jail),
        OfJail::Findtime => What::Findtime { jail, secs: 600 },
        OfJail::Bantime => What::Bantime { jail, secs: -1 },
        OfJail::Maxretry => What::Maxretry { jail, number: 5 },
        OfJail::Idle => What::Idle { jail, idle: true },
    })
}

fn copy_each(rt: &impl Abort, alloc: Global, kinds: &[OfJail]) -> Result<(), NoMemory> {
    for kind in kinds {
        input_copies(rt, of_jail(alloc, *kind)?)?;
    }
    Ok(())
}

#[test]
fn what_was_read_copies(rt: HostRuntime) -> Result<(), Fail> {
    copy_each(&rt, rt.alloc(), &[OfJail::Read])?;
    Ok(())
}

#[test]
fn bans_by_command_copy(rt: HostRuntime) -> Result<(), Fail> {
    copy_each(
        &rt,
        rt.alloc(),
        &[OfJail::Ban, OfJail::Unban, OfJail::Attempt],
    )?;
    Ok(())
}

const SETTINGS: [OfJail; 5] = [
    OfJail::Ignore,
    OfJail::Findtime,
    OfJail::Bantime,
    OfJail::Maxretry,
    OfJail::Idle,
];

#[test]
fn settings_of_a_jail_copy(rt: HostRuntime) -> Result<(), Fail> {
    copy_each(&rt, rt.alloc(), &SETTINGS)?;
    Ok(())
}

#[test]
fn inputs_of_the_whole_server_copy(rt: HostRuntime) -> Result<(), Fail> {
    input_copies(&rt, What::Tick)?;
    input_copies(&rt, What::Stop)?;
    let job = 8;
    let outcome = Outcome::Status(1);
    input_copies(&rt, What::Ended { job, outcome })?;
    let outcome = Outcome::TimedOut;
    input_copies(&rt, What::CheckFailed { job, outcome })?;
    let defs = defs(rt.alloc())?;
    input_copies(&rt, What::Config { defs })?;
    Ok(())
}

fn file(alloc: Global) -> Result<TreeFile, NoMemory> {
    let path = text(alloc, "jail.conf")?;
    let content = Bytes::from_slice(alloc, b"[]")?;
    Ok(TreeFile { path, content })
}

fn answer(alloc: Global) -> Result<TreeAnswer, NoMemory> {
    let files = one(alloc, file(alloc))?;
    Ok(TreeAnswer::Tree(Tree { files }))
}

fn look(alloc: Global) -> Result<FileLook, NoMemory> {
    Ok(FileLook {
        size: 2,
        head: Bytes::from_slice(alloc, &[b'a'])?,
        bytes: Bytes::from_slice(alloc, &[b'a', b'b'])?,
    })
}

#[test]
fn what_the_outside_brings_copies(rt: HostRuntime) -> Result<(), Fail> {
    copies(&rt, answer(rt.alloc()))?;
    copies(&rt, look(rt.alloc()))?;
    Ok(())
}
