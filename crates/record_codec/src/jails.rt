//! What is kept of jails.
ghost use Rattle.std.specs.Prelude.{◌≡◌, ◌++◌, bytes_eq, OnOk};
ghost use Rattle.record_fields.specs.Codec.{Gives, capped};
ghost use Rattle.record_codec.specs.declared.version.Version.TheVariants.{Two};
ghost use Rattle.record_codec.specs.Views.{watch_spelling, path_of, watch_view, watches_at, totals_spelling, tables_spelling, jail_spelling, name_of, jail_view, jails_at};

use crate::bans::{ActiveBans, PastBans, take_active_bans};
use crate::failures::Found;
use crate::logs::{place_len, put_place, take_place};
use crate::names::{name_len, put_name, take_name};
use crate::open_failures::OpenFailures;
use crate::version::Version;
use f2b_base::{
    Ban, Bytes, Failure, JailDef, JailView, NoMemory, Past, Seq, Text, WatchDef, WatchView,
};
use record_fields::{
    Fault, ItemsBy, Spell, joined_len, list_len, number_len, put_flag, put_list, put_number,
    put_text, tagged_len, take_each, take_flag, take_list, take_moment, take_number, take_text,
    text_len,
};
use std::alloc::Global;

/// Logs of a jail, and how far they were followed.
#[derive(Clone, Copy, Drop)]
struct WatchViews;

impl Spell<WatchView> for WatchViews {
    ghost spelling = { watch_spelling };

    #[tactic(auto, unfolding(crate::specs::Views::watch_spelling))]
    fn put(item: &WatchView, out: &mut Bytes) -> Result<(), NoMemory> {
        put_text(&item.path, out)?;
        put_place(&item.place, out)
    }

    #[tactic(auto, unfolding(crate::specs::Views::watch_spelling))]
    fn len(item: &WatchView) -> u64 {
        joined_len(text_len(&item.path), place_len(&item.place))
    }
}

/// The path at the front of the bytes, which is that of the definition.
fn take_path<'a>(alloc: Global, by: &WatchDef, bytes: &'a [u8]) -> Result<(Text, &'a [u8]), Fault>
    ensures { Gives (λ x. (x.0, x.1.now)) result ((path_of by.now).read bytes.now) }
{
    let (path, rest) = take_text(alloc, bytes)?;
    if path == by.path {
        Ok((path, rest))
    } else {
        Err(Fault::Left(bytes.len() as u64))
    }
}

impl ItemsBy<WatchDef, WatchView> for WatchViews {
    ghost reading = { λ _ by. (watch_view by).read };

    #[tactic(auto, unfolding(crate::specs::Views::watch_view))]
    fn take_by<'a>(
        &self,
        alloc: Global,
        by: &WatchDef,
        bytes: &'a [u8],
    ) -> Result<(WatchView, &'a [u8]), Fault> {
        let (path, rest) = take_path(alloc, by, bytes)?;
        let (place, rest) = take_place(alloc, rest)?;
        Ok((WatchView { path, place }, rest))
    }
}

#[tactic(auto, unfolding(crate::specs::Views::watches_at))]
fn take_watches<'a>(
    alloc: Global,
    by: &[WatchDef],
    bytes: &'a [u8],
) -> Result<(Seq<WatchView>, &'a [u8]), Fault>
    ensures { Gives (λ x. (x.0, x.1.now)) result (watches_at by.now bytes.now) }
{
    take_each(&WatchViews, alloc, by, bytes)
}

/// The name at the front of the bytes, which is that of the definition.
fn take_name_of<'a>(alloc: Global, by: &JailDef, bytes: &'a [u8]) -> Result<(Text, &'a [u8]), Fault>
    ensures { Gives (λ x. (x.0, x.1.now)) result ((name_of by.now).read bytes.now) }
{
    let (name, rest) = take_name(alloc, bytes)?;
    if name == by.name {
        Ok((name, rest))
    } else {
        Err(Fault::Left(bytes.len() as u64))
    }
}

fn put_totals(jail: &JailView, out: &mut Bytes) -> Result<(), NoMemory>
    ensures { OnOk result (out.new ≡ out.old ++ totals_spelling jail.now) }
{
    put_name(&jail.name, out)?;
    put_flag(jail.idle, out)?;
    put_number(jail.total_failed, out)?;
    put_number(jail.total_banned, out)?;
    put_number(jail.moment, out)
}

fn tables_len(jail: &JailView) -> u64
    ensures { result ≡ capped (tables_spelling Two jail.now) }
{
    let watches = list_len::<WatchView, WatchViews>(jail.watches.as_slice());
    let past = joined_len(list_len::<Past, PastBans>(jail.past.as_slice()), watches);
    let bans = joined_len(list_len::<Ban, ActiveBans>(jail.bans.as_slice()), past);
    joined_len(list_len::<Failure, Found>(jail.failures.as_slice()), bans)
}

/// Jails, each by its definition.
#[derive(Clone, Copy, Drop)]
pub(crate) struct JailViews {
    pub(crate) version: Version,
    /// Now, in seconds since 1970.
    pub(crate) at: u64,
}

impl Spell<JailView> for JailViews {
    ghost spelling = { jail_spelling Two };

    #[tactic(auto, unfolding(crate::specs::Views::jail_spelling))]
    fn put(item: &JailView, out: &mut Bytes) -> Result<(), NoMemory> {
        put_totals(item, out)?;
        put_list::<Failure, Found>(item.failures.as_slice(), out)?;
        put_list::<Ban, ActiveBans>(item.bans.as_slice(), out)?;
        put_list::<Past, PastBans>(item.past.as_slice(), out)?;
        put_list::<WatchView, WatchViews>(item.watches.as_slice(), out)
    }

    #[tactic(auto, unfolding(crate::specs::Views::jail_spelling))]
    fn len(item: &JailView) -> u64 {
        let moment = joined_len(number_len(item.moment), tables_len(item));
        let banned = joined_len(number_len(item.total_banned), moment);
        let failed = joined_len(number_len(item.total_failed), banned);
        joined_len(name_len(&item.name), tagged_len(failed))
    }
}

impl ItemsBy<JailDef, JailView> for JailViews {
    ghost reading = { λ of by. (jail_view of.version of.at by).read };

    #[tactic(auto, unfolding(crate::specs::Views::jail_view))]
    fn take_by<'a>(
        &self,
        alloc: Global,
        by: &JailDef,
        bytes: &'a [u8],
    ) -> Result<(JailView, &'a [u8]), Fault> {
        let by_time = OpenFailures {
            version: self.version,
            at: self.at,
        };
        let (name, rest) = take_name_of(alloc, by, bytes)?;
        let (idle, rest) = take_flag(rest)?;
        let (total_failed, rest) = take_number(rest)?;
        let (total_banned, rest) = take_number(rest)?;
        let (moment, rest) = take_moment(rest)?;
        let (failures, rest) = take_list(&by_time, alloc, None, rest)?;
        let (bans, rest) = take_active_bans(alloc, rest)?;
        let (past, rest) = take_list(&PastBans, alloc, None, rest)?;
        let (watches, rest) = take_watches(alloc, by.watches.as_slice(), rest)?;
        Ok((
            JailView {
                name,
                idle,
                total_failed,
                total_banned,
                moment,
                failures,
                bans,
                past,
                watches,
            },
            rest,
        ))
    }
}

/// The jails at the front of the bytes, one for each definition.
#[tactic(auto, unfolding(crate::specs::Views::jails_at))]
pub(crate) fn take_jails<'a>(
    version: Version,
    alloc: Global,
    at: u64,
    by: &[JailDef],
    bytes: &'a [u8],
) -> Result<(Seq<JailView>, &'a [u8]), Fault>
    ensures { Gives (λ x. (x.0, x.1.now)) result (jails_at version at by.now bytes.now) }
{
    take_each(&JailViews { version, at }, alloc, by, bytes)
}
