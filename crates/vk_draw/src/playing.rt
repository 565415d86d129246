//! A schedule, played on all stations of its configuration, and what is drawn of it.

ghost use Rattle.std.specs.Prelude.{◌≡◌, ◌<◌, ◌≤◌, ◌+◌, ◌++◌, ◌∷◌, ◌⊎◌, [], List, length, true, false, Err, IfOk, IfErr, OnOk, OnErr};
ghost use Rattle.vk_base.specs.Settings.{Settings};
ghost use Rattle.vk_base.specs.declared.limits.TheConstants.{EVENTS};
ghost use Rattle.vk_cluster.specs.Standing.{StandsFor, StandsSomewhere, logs_of};
ghost use Rattle.vk_cluster.specs.Values.{is_full};
ghost use Rattle.vk_schedule.specs.declared.event.Event.{Event as TheEvent};
ghost use Rattle.vk_schedule.specs.Lawful.{IsLawful, has_actors};
ghost use Rattle.vk_rules.specs.Entries.{Entry};
ghost use Rattle.vk_rules.specs.Histories.{At, Missing};
ghost use Rattle.vk_cluster.specs.Shown.{HasReported, IsLastEvent};
ghost use Rattle.vk_picture.specs.declared.svg.TheConstants.{COLUMNS, ROWS};
ghost use Rattle.vk_draw.specs.Playing.{ArePlayed, IsHad, next_row};
ghost use Rattle.vk_draw.specs.Rows.{picture_of, picture_row};
ghost use Rattle.vk_draw.specs.Top.{FitsPicture, IsTooLarge};

use crate::frames::frame_marks;
use crate::rows::{act_of, said_of, step_marks};
use crate::status::Status;
use std::alloc::Global;
use vk_base::{EventAnswer, List, NoMemory};
use vk_cluster::{Cluster, ClusterAnswer, ClusterRefusal, StepReport};
use vk_host::Host;
use vk_picture::{EventRow, Picture, ROWS, Said, columns_of};
use vk_schedule::{Event, Schedule};

/// The station's last event, of which the cluster reports, and which was answered so.
fn station_row(
    alloc: Global,
    station: &Host,
    number: u16,
    event: &Event,
    report: &StepReport,
    answer: &EventAnswer,
) -> Result<EventRow, NoMemory>
    requires { (e : Entry) × IsLastEvent station.now answer.now e }
    ensures { IfOk result (λ row. (e : Entry) → IsLastEvent station.now answer.now e →
        row ≡ picture_row number event.now (At report.now.host report.now.event e)) }
{
    Ok(EventRow {
        number,
        host: report.host,
        own: report.event,
        act: act_of(event),
        said: said_of(answer),
        steps: step_marks(alloc, station.steps())?,
        frames: frame_marks(alloc, station)?,
    })
}

/// A delivery to this station, of what was not emitted for it.
fn missing_row(alloc: Global, number: u16, event: &Event, host: u16) -> EventRow
    ensures { result ≡ picture_row number event.now (Missing host) }
{
    EventRow {
        number,
        host,
        own: 0,
        act: act_of(event),
        said: Said::Missing,
        steps: List::empty(alloc),
        frames: List::empty(alloc),
    }
}

/// The row of what the cluster reports of its last event.
fn row_by(
    alloc: Global,
    cluster: &Cluster,
    number: u16,
    event: &Event,
    report: &StepReport,
) -> Result<EventRow, NoMemory>
    requires { (c : Settings) × (es : List TheEvent) × HasReported c es cluster.now event.now report.now }
    ensures { IfOk result (λ row. (c : Settings) (es : List TheEvent) → HasReported c es cluster.now event.now report.now →
        row ≡ next_row c es event.now number) }
{
    match &report.answer {
        ClusterAnswer::Missing => Ok(missing_row(alloc, number, event, report.host)),
        ClusterAnswer::Event { answer } => {
            let station = cluster.host(report.host);
            station_row(alloc, station, number, event, report, answer)
        }
    }
}

/// The row of the cluster's last event, behind the others.
fn put_report(
    alloc: Global,
    cluster: &Cluster,
    rows: &mut List<EventRow>,
    event: &Event,
    report: &StepReport,
) -> Result<(), NoMemory>
    requires few { length rows.old < ROWS }
    requires reported { (c : Settings) × (es : List TheEvent) × HasReported c es cluster.now event.now report.now }
    ensures { OnOk result ((c : Settings) (es : List TheEvent) → HasReported c es cluster.now event.now report.now →
        rows.new ≡ rows.old ++ next_row c es event.now (length rows.old + 1) ∷ []) }
{
    let number = rows.len() as u16 + 1;
    let row = row_by(alloc, cluster, number, event, report)?;
    rows.push(row)
}

/// One event, and its row.
fn put_event(
    alloc: Global,
    cluster: &mut Cluster,
    rows: &mut List<EventRow>,
    event: &Event,
) -> Result<(), ClusterRefusal>
    requires few { length rows.old < ROWS }
    requires somewhere { StandsSomewhere cluster.old }
    requires actors { has_actors cluster.old.config.specs event.now ≡ true }
    ensures had { OnOk result ((c : Settings) (es : List TheEvent) → StandsFor c es cluster.old →
        IsHad c es event.now rows.old rows.new cluster.new) }
    ensures room { OnOk result (is_full cluster.old ≡ false) }
    ensures refused { result ≡ Err ClusterRefusal.Limit → is_full cluster.old ≡ true }
{
    let stepped = cluster.step(alloc, event);
    match &stepped {
        Ok(report) => match put_report(alloc, cluster, rows, event, report) {
            Ok(()) => Ok(()),
            Err(NoMemory) => Err(ClusterRefusal::NoMemory),
        },
        Err(refusal) => Err(*refusal),
    }
}

/// The rows of these events, before which the cluster had none.
fn rows_of(
    alloc: Global,
    cluster: &mut Cluster,
    schedule: &Schedule,
    events: &[Event],
) -> Result<List<EventRow>, Status>
    requires lawful { IsLawful schedule.now }
    requires events { events.now ≡ schedule.now.events }
    requires few { length events.now ≤ ROWS }
    requires stands { StandsFor schedule.now.config [] cluster.old }
    ensures rows { IfOk result (λ rows. rows ≡ (picture_of schedule.now).rows) }
    ensures fits { OnOk result (FitsPicture schedule.now) }
    ensures refused { IfErr result (λ e. (e ≡ Status.NoMemory) ⊎ ((e ≡ Status.Limit) × IsTooLarge schedule.now)) }
{
    let mut rows = List::empty(alloc);
    for event in events {
        put_event(alloc, cluster, &mut rows, event)?;
    }
    Ok(rows)
}

/// What is drawn of a schedule.
pub(crate) fn picture_of(alloc: Global, schedule: &Schedule) -> Result<Picture, Status>
    requires lawful { IsLawful schedule.now }
    requires few { length schedule.now.events ≤ ROWS }
    ensures picture { IfOk result (λ p. p ≡ picture_of schedule.now) }
    ensures columns { IfOk result (λ p. length p.columns ≤ COLUMNS) }
    ensures fits { OnOk result (FitsPicture schedule.now) }
    ensures refused { IfErr result (λ e. (e ≡ Status.NoMemory) ⊎ ((e ≡ Status.Limit) × IsTooLarge schedule.now)) }
{
    let columns = columns_of(alloc, schedule.config.specs())?;
    let mut cluster = Cluster::new(alloc, &schedule.config)?;
    let rows = rows_of(alloc, &mut cluster, schedule, schedule.events.as_slice())?;
    Ok(Picture { columns, rows })
}
