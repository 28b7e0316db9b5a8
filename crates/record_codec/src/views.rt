//! Views.
ghost use Rattle.std.specs.Prelude.{◌≡◌, ◌≤◌, ◌++◌, ◌&&◌, nat_le, not, OnOk};
ghost use Rattle.std.specs.List.{list_any};
ghost use Rattle.f2b_base.specs.declared.job.Job.{Job as Pending};
ghost use Rattle.record_fields.specs.Codec.{Gives, capped, checked};
ghost use Rattle.record_fields.specs.Lists.{list_of};
ghost use Rattle.record_fields.specs.Numbers.{number};
ghost use Rattle.record_codec.specs.declared.version.Version.TheVariants.{Two};
ghost use Rattle.record_codec.specs.Lanes.{job};
ghost use Rattle.record_codec.specs.Views.{jail_spelling, settings_spelling, is_next_job, has_late_ban, is_next_ban, view};

use crate::definitions::{defs_len, put_defs, take_defs};
use crate::jails::{JailViews, take_jails};
use crate::jobs::Jobs;
use crate::lanes::UpLanes;
use crate::version::Version;
use f2b_base::{Bytes, JailView, Job, NoMemory, UpLane, View};
use record_fields::{
    Fault, joined_len, list_len, number_len, put_flag, put_list, put_number, tagged_len, take_flag,
    take_list, take_moment, take_number,
};
use std::alloc::Global;

/// The greatest number to come, of jobs and of bans.
const MOST_NUMBERS: u64 = 1 << 63;

fn has_late_job(jobs: &[Job], next: u64) -> bool
    ensures { result ≡ list_any (λ (j : Pending). nat_le next j.id) jobs.now }
{
    jobs.iter().any(|job| next <= job.id)
}

fn is_next_job(jobs: &[Job], next: u64) -> bool
    ensures { result ≡ is_next_job jobs.now next }
{
    next <= MOST_NUMBERS && !has_late_job(jobs, next)
}

fn take_next_job<'a>(jobs: &[Job], bytes: &'a [u8]) -> Result<(u64, &'a [u8]), Fault>
    ensures { Gives (λ x. (x.0, x.1.now)) result ((checked (is_next_job jobs.now) number).read bytes.now) }
{
    let (next, rest) = take_number(bytes)?;
    if is_next_job(jobs, next) {
        Ok((next, rest))
    } else {
        Err(Fault::Left(bytes.len() as u64))
    }
}

fn has_late_ban(next: u64, jail: &JailView) -> bool
    ensures { result ≡ has_late_ban next jail.now }
{
    jail.bans.as_slice().iter().any(|ban| next <= ban.serial)
}

fn have_late_ban(jails: &[JailView], next: u64) -> bool
    ensures { result ≡ list_any (has_late_ban next) jails.now }
{
    jails.iter().any(|jail| has_late_ban(next, jail))
}

fn is_next_ban(jails: &[JailView], next: u64) -> bool
    ensures { result ≡ is_next_ban jails.now next }
{
    next <= MOST_NUMBERS && !have_late_ban(jails, next)
}

fn take_next_ban<'a>(jails: &[JailView], bytes: &'a [u8]) -> Result<(u64, &'a [u8]), Fault>
    ensures { Gives (λ x. (x.0, x.1.now)) result ((checked (is_next_ban jails.now) number).read bytes.now) }
{
    let (next, rest) = take_number(bytes)?;
    if is_next_ban(jails, next) {
        Ok((next, rest))
    } else {
        Err(Fault::Left(bytes.len() as u64))
    }
}

fn put_settings(it: &View, out: &mut Bytes) -> Result<(), NoMemory>
    ensures { OnOk result (out.new ≡ out.old ++ settings_spelling it.now) }
{
    put_number(it.at, out)?;
    put_defs(&it.defs, out)?;
    put_flag(it.stopping, out)?;
    put_list::<UpLane, UpLanes>(it.up.as_slice(), out)
}

/// Adds a view, in version 2.
#[tactic(auto, unfolding(crate::specs::Views::view))]
pub(crate) fn put_view(it: &View, out: &mut Bytes) -> Result<(), NoMemory>
    ensures { OnOk result (out.new ≡ out.old ++ (view Two).spell it.now) }
{
    put_settings(it, out)?;
    put_list::<JailView, JailViews>(it.jails.as_slice(), out)?;
    put_list::<Job, Jobs>(it.jobs.as_slice(), out)?;
    put_number(it.next_job, out)?;
    put_number(it.next_ban, out)
}

fn tables_len(it: &View) -> u64
    ensures { result ≡ capped (list_of (jail_spelling Two) it.now.jails ++ (list_of job.spell it.now.jobs ++ (number.spell it.now.next_job ++ number.spell it.now.next_ban))) }
{
    let numbers = joined_len(number_len(it.next_job), number_len(it.next_ban));
    let jobs = joined_len(list_len::<Job, Jobs>(it.jobs.as_slice()), numbers);
    joined_len(list_len::<JailView, JailViews>(it.jails.as_slice()), jobs)
}

/// How long a view is in version 2.
#[tactic(auto, unfolding(crate::specs::Views::view))]
pub(crate) fn whole_len(it: &View) -> u64
    ensures { result ≡ capped ((view Two).spell it.now) }
{
    let up = joined_len(
        list_len::<UpLane, UpLanes>(it.up.as_slice()),
        tables_len(it),
    );
    let stopping = tagged_len(up);
    joined_len(number_len(it.at), joined_len(defs_len(&it.defs), stopping))
}

/// The view at the front of the bytes.
#[tactic(auto, unfolding(crate::specs::Views::view))]
pub(crate) fn take_view(
    version: Version,
    alloc: Global,
    bytes: &[u8],
) -> Result<(View, &[u8]), Fault>
    ensures { Gives (λ x. (x.0, x.1.now)) result ((view version).read bytes.now) }
{
    let (at, rest) = take_moment(bytes)?;
    let (defs, rest) = take_defs(alloc, rest)?;
    let (stopping, rest) = take_flag(rest)?;
    let (up, rest) = take_list(&UpLanes, alloc, None, rest)?;
    let (jails, rest) = take_jails(version, alloc, at, defs.jails.as_slice(), rest)?;
    let (jobs, rest) = take_list(&Jobs, alloc, None, rest)?;
    let (next_job, rest) = take_next_job(jobs.as_slice(), rest)?;
    let (next_ban, rest) = take_next_ban(jails.as_slice(), rest)?;
    Ok((
        View {
            at,
            defs,
            stopping,
            up,
            jails,
            jobs,
            next_job,
            next_ban,
        },
        rest,
    ))
}
