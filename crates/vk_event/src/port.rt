//! Ports of stations.

ghost use Rattle.std.specs.Prelude.{◌≡◌, ◌+◌, ◌≤◌, IfOk, drop, length};
ghost use Rattle.vk_text.specs.Lines.{lines_of, words_from};
ghost use Rattle.vk_event.specs.Ports.{has_all_ports, has_port, have_ports, if_follows, line_behind, may_follow, port_above, port_fields_of, port_of, ports_from};

use crate::scenario::Scenario;
use std::alloc::Global;
use vk_base::{Config, List, NoMemory, ProcessSpec};
use vk_text::{is_end, next_line, next_positive, next_station, next_word};

/// The greatest port.
const PORT: u16 = 65_535;

/// Where the frames of a station go.
#[derive(Clone, Copy, Debug, PartialEq, Eq)]
pub struct StationPort {
    pub host: u16,
    /// 1 to 65,535.
    pub port: u16,
}

/// Ports, and where the line behind theirs starts.
#[derive(Drop)]
pub struct PortLines {
    pub ports: List<StationPort>,
    pub at: usize,
}

/// `H PORT`
#[tactic(auto, unfolding(crate::specs::Ports::port_fields_of))]
fn read_port_fields(line: &[u8], at: usize) -> Option<StationPort>
    ensures { result ≡ port_fields_of (words_from line.now at) }
{
    let (host, at) = next_station(line, at)?;
    let (port, at) = next_positive(line, at, u64::from(PORT))?;
    if is_end(line, at) {
        Some(StationPort {
            host,
            port: port as u16,
        })
    } else {
        None
    }
}

/// `port H PORT`
#[tactic(auto, unfolding(crate::specs::Ports::port_of))]
fn read_port(line: &[u8]) -> Option<StationPort>
    ensures { result ≡ port_of (words_from line.now 0) }
{
    let (word, at) = next_word(line, 0)?;
    if word == b"port".as_slice() {
        read_port_fields(line, at)
    } else {
        None
    }
}

/// Whether the port's station is one of the configuration, and above the last.
fn may_follow(config: &Config, last: u16, port: StationPort) -> bool
    ensures { result ≡ may_follow config.now.specs last port }
{
    config.has_station(port.host) && last < port.host
}

/// The port that the line tells, of a station of the configuration above the last.
fn read_port_above(config: &Config, last: u16, line: &[u8]) -> Option<StationPort>
    ensures { result ≡ port_above config.now.specs last line.now }
{
    let port = read_port(line)?;
    if may_follow(config, last, port) {
        Some(port)
    } else {
        None
    }
}

/// The ports that the lines from `start` on tell, by rising stations of the configuration, up to the first line that tells none.
pub fn read_ports(
    alloc: Global,
    config: &Config,
    text: &[u8],
    start: usize,
) -> Result<PortLines, NoMemory>
    requires { start ≤ length text.now }
    ensures read { IfOk result (λ r. ports_from config.now.specs 0 (lines_of (drop start text.now))
        ≡ (r.ports, lines_of (drop r.at text.now))) }
    ensures within { IfOk result (λ r. r.at ≤ length text.now) }
    ensures few { IfOk result (λ r. start + length r.ports ≤ r.at) }
{
    let mut ports = List::empty(alloc);
    let mut at = start;
    let mut last = 0;
    while let Some((line, next)) = next_line(text, at) {
        let Some(port) = read_port_above(config, last, line) else {
            return Ok(PortLines { ports, at });
        };
        ports.push(port)?;
        last = port.host;
        at = next;
    }
    Ok(PortLines { ports, at })
}

/// Whether the station has a port.
fn has_port(ports: &[StationPort], host: u16) -> bool
    ensures { result ≡ has_port ports.now host }
{
    ports.iter().any(|p| p.host == host)
}

/// Whether the station of each of these processes has a port.
fn have_ports(specs: &[ProcessSpec], ports: &[StationPort]) -> bool
    ensures { result ≡ have_ports specs.now ports.now }
{
    specs.iter().all(|s| has_port(ports, s.pid.host))
}

/// Whether the host is a station of the scenario, and each of its stations has a port.
pub fn has_all_ports(scenario: &Scenario, host: u16) -> bool
    ensures { result ≡ has_all_ports scenario.now.config.specs scenario.now.ports host }
{
    scenario.config.has_station(host)
        && have_ports(scenario.config.specs(), scenario.ports.as_slice())
}

/// The number, from 1, of the line that would stand behind the text's last.
pub fn line_behind(text: &[u8]) -> u64
    ensures { result ≡ line_behind text.now }
{
    let mut line = 1;
    let mut at = 0;
    while let Some((_, next)) = next_line(text, at) {
        line += 1;
        at = next;
    }
    line
}
