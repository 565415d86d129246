//! The text of the frames of a history, one event after another.

ghost use Rattle.std.specs.Prelude.{◌≡◌, ◌<◌, ◌≤◌, ◌++◌, ◌⊎◌, [], ℕ, codes, flat_map, length, slice_get, true, false, Err, Some, List, IfOk, IfErr, OnOk};
ghost use Rattle.vk_base.specs.Settings.{Settings};
ghost use Rattle.vk_cluster.specs.Shown.{HasReported, Sends};
ghost use Rattle.vk_cluster.specs.Standing.{StandsFor, StandsSomewhere, logs_of};
ghost use Rattle.vk_cluster.specs.Values.{is_full};
ghost use Rattle.vk_host.specs.Sealed.{sealed};
ghost use Rattle.vk_packet.specs.Views.{value_of};
ghost use Rattle.vk_rules.specs.Frames.{Frame as TheFrame};
ghost use Rattle.vk_rules.specs.Histories.{happened};
ghost use Rattle.v_lawful.specs.Sending.{IsLawfulFrame};
ghost use Rattle.vk_schedule.specs.declared.event.Event.{Event as TheEvent};
ghost use Rattle.vk_schedule.specs.Lawful.{IsLawful, has_actors};
ghost use Rattle.vk_text.specs.Texts.{shown};
ghost use Rattle.vk_frame_text.specs.Frames.{title_line};
ghost use Rattle.vk_draw.specs.Frames.{frames_text, happened_lines, line_of};
ghost use Rattle.vk_draw.specs.Playing.{HasTold};
ghost use Rattle.vk_draw.specs.Top.{FitsPicture, IsTooLarge};

use crate::status::Status;
use std::alloc::Global;
use vk_base::NoMemory;
use vk_cluster::{Cluster, ClusterAnswer, ClusterRefusal, StepReport};
use vk_frame::{Header, unseal};
use vk_frame_text::put_frame_line;
use vk_host::Host;
use vk_packet::{PacketView, decode, packets_are_spelled_once};
use vk_schedule::{Event, Schedule};
use vk_text::{Text, put};

/// The header and the packet of a frame that a station emitted.
fn opened(bytes: &[u8]) -> (Header, PacketView<'_>)
    requires { (f : TheFrame) × IsLawfulFrame f × (bytes.now ≡ sealed f) }
    ensures { (f : TheFrame) → IsLawfulFrame f → bytes.now ≡ sealed f → (result.0 ≡ f.header) × (value_of result.1 ≡ f.packet) }
{
    packets_are_spelled_once();
    match unseal(bytes) {
        Some((header, rest)) => match decode(rest) {
            Some(packet) => (header, packet),
            None => unreachable!(),
        },
        None => unreachable!(),
    }
}

/// The line of frame number `at` of the station's last event, counted from 0.
fn put_line(station: &Host, text: &mut Text, at: u32) -> Result<(), NoMemory>
    requires at { at < length station.now.frames }
    requires sends { (fs : List TheFrame) × Sends station.now fs }
    ensures { OnOk result ((fs : List TheFrame) → Sends station.now fs → (f : TheFrame) → slice_get fs at ≡ Some f →
        shown text.new ≡ shown text.old ++ line_of f) }
{
    let (header, packet) = opened(station.frame(at));
    put_frame_line(text, &header, &packet)
}

/// The lines of the frames of the station's last event.
fn put_lines(station: &Host, text: &mut Text) -> Result<(), NoMemory>
    requires { (fs : List TheFrame) × Sends station.now fs }
    ensures { OnOk result ((fs : List TheFrame) → Sends station.now fs →
        shown text.new ≡ shown text.old ++ flat_map line_of fs) }
{
    for at in 0..station.frame_count() {
        put_line(station, text, at)?;
    }
    Ok(())
}

/// The lines of the frames of what the cluster reports of its last event.
fn put_report(cluster: &Cluster, text: &mut Text, report: &StepReport) -> Result<(), NoMemory>
    requires { (c : Settings) × (es : List TheEvent) × (e : TheEvent) × HasReported c es cluster.now e report.now }
    ensures { OnOk result ((c : Settings) (es : List TheEvent) (e : TheEvent) → HasReported c es cluster.now e report.now →
        shown text.new ≡ shown text.old ++ happened_lines (happened c (logs_of c es) e)) }
{
    match &report.answer {
        ClusterAnswer::Missing => Ok(()),
        ClusterAnswer::Event { .. } => {
            let station = cluster.host(report.host);
            put_lines(station, text)
        }
    }
}

/// One event, and the lines of its frames.
fn put_event(
    alloc: Global,
    cluster: &mut Cluster,
    text: &mut Text,
    event: &Event,
) -> Result<(), ClusterRefusal>
    requires somewhere { StandsSomewhere cluster.old }
    requires actors { has_actors cluster.old.config.specs event.now ≡ true }
    ensures told { OnOk result ((c : Settings) (es : List TheEvent) → StandsFor c es cluster.old →
        HasTold c es event.now (shown text.old) (shown text.new) cluster.new) }
    ensures room { OnOk result (is_full cluster.old ≡ false) }
    ensures refused { result ≡ Err ClusterRefusal.Limit → is_full cluster.old ≡ true }
{
    let stepped = cluster.step(alloc, event);
    match &stepped {
        Ok(report) => match put_report(cluster, text, report) {
            Ok(()) => Ok(()),
            Err(NoMemory) => Err(ClusterRefusal::NoMemory),
        },
        Err(refusal) => Err(*refusal),
    }
}

/// The lines of the frames of these events, before which the cluster had none.
fn put_events(
    alloc: Global,
    cluster: &mut Cluster,
    text: &mut Text,
    schedule: &Schedule,
    events: &[Event],
) -> Result<(), Status>
    requires lawful { IsLawful schedule.now }
    requires events { events.now ≡ schedule.now.events }
    requires title { shown text.old ≡ title_line }
    requires stands { StandsFor schedule.now.config [] cluster.old }
    ensures lines { OnOk result (shown text.new ≡ frames_text schedule.now) }
    ensures fits { OnOk result (FitsPicture schedule.now) }
    ensures refused { IfErr result (λ e. (e ≡ Status.NoMemory) ⊎ ((e ≡ Status.Limit) × IsTooLarge schedule.now)) }
{
    for event in events {
        put_event(alloc, cluster, text, event)?;
    }
    Ok(())
}

/// The first line of a text of frames.
fn title(alloc: Global) -> Result<Text, NoMemory>
    ensures { IfOk result (λ text. shown text ≡ title_line) }
{
    let mut title = Vec::new(alloc);
    put(&mut title, b"vkernel frames 1\n")?;
    Ok(Text::new(title))
}

/// The text of the frames of a schedule's history.
pub(crate) fn frames_text(alloc: Global, schedule: &Schedule) -> Result<Vec<u8>, Status>
    requires lawful { IsLawful schedule.now }
    ensures text { IfOk result (λ text. text.items ≡ frames_text schedule.now) }
    ensures fits { OnOk result (FitsPicture schedule.now) }
    ensures refused { IfErr result (λ e. (e ≡ Status.NoMemory) ⊎ ((e ≡ Status.Limit) × IsTooLarge schedule.now)) }
{
    let mut cluster = Cluster::new(alloc, &schedule.config)?;
    let mut text = title(alloc)?;
    put_events(
        alloc,
        &mut cluster,
        &mut text,
        schedule,
        schedule.events.as_slice(),
    )?;
    Ok(text.into_bytes()?)
}
