//! The names of programs and what they are to do, as words of a line.

ghost use Rattle.std.specs.Prelude.{◌≡◌, Some, None, IfOk, MatchOption};
ghost use Rattle.vk_text.specs.Lines.{words_from};
ghost use Rattle.vk_event.specs.Tasks.{client_of, file_server_of, group_helper_of, group_of, kind_of, loader_of, pair_of, pairs_of, pipe_server_of, server_of};

use crate::pair::{HelperPair, are_pairs};
use crate::task::{FILES, PAGES, TaskKind};
use std::alloc::Global;
use vk_base::{List, NoMemory};
use vk_text::{is_end, next_count, next_number, next_pid, next_positive, next_word};

/// `PAGES REQUESTS`
#[tactic(auto, unfolding(crate::specs::Tasks::server_of))]
fn read_server(line: &[u8], at: usize) -> Option<TaskKind>
    ensures { result ≡ server_of (words_from line.now at) }
{
    let (pages, at) = next_positive(line, at, u64::from(PAGES))?;
    let (requests, at) = next_count(line, at)?;
    if is_end(line, at) {
        Some(TaskKind::PageServer {
            pages: pages as u32,
            requests,
        })
    } else {
        None
    }
}

/// `SERVER PAGES ROUNDS`
#[tactic(auto, unfolding(crate::specs::Tasks::client_of))]
fn read_client(line: &[u8], at: usize) -> Option<TaskKind>
    ensures { result ≡ client_of (words_from line.now at) }
{
    let (server, at) = next_pid(line, at)?;
    let (pages, at) = next_positive(line, at, u64::from(PAGES))?;
    let (rounds, at) = next_count(line, at)?;
    if is_end(line, at) {
        Some(TaskKind::PageClient {
            server,
            pages: pages as u32,
            rounds,
        })
    } else {
        None
    }
}

/// `FILES REQUESTS`
#[tactic(auto, unfolding(crate::specs::Tasks::file_server_of))]
fn read_file_server(line: &[u8], at: usize) -> Option<TaskKind>
    ensures { result ≡ file_server_of (words_from line.now at) }
{
    let (files, at) = next_positive(line, at, u64::from(FILES))?;
    let (requests, at) = next_count(line, at)?;
    if is_end(line, at) {
        Some(TaskKind::FileServer {
            files: files as u32,
            requests,
        })
    } else {
        None
    }
}

/// `SERVER I`
#[tactic(auto, unfolding(crate::specs::Tasks::loader_of))]
fn read_loader(line: &[u8], at: usize) -> Option<TaskKind>
    ensures { result ≡ loader_of (words_from line.now at) }
{
    let (server, at) = next_pid(line, at)?;
    let (file, at) = next_number(line, at, u64::from(FILES - 1))?;
    if is_end(line, at) {
        Some(TaskKind::Loader {
            server,
            file: file as u32,
        })
    } else {
        None
    }
}

/// `REQUESTS`
#[tactic(auto, unfolding(crate::specs::Tasks::pipe_server_of))]
fn read_pipe_server(line: &[u8], at: usize) -> Option<TaskKind>
    ensures { result ≡ pipe_server_of (words_from line.now at) }
{
    let (requests, at) = next_count(line, at)?;
    if is_end(line, at) {
        Some(TaskKind::PipeServer { requests })
    } else {
        None
    }
}

/// `HELPER MEMBER`, and where the word behind would start
#[tactic(auto, unfolding(crate::specs::Tasks::pair_of))]
fn read_pair(line: &[u8], at: usize) -> Option<(HelperPair, usize)>
    ensures { MatchOption result (pair_of (words_from line.now at) ≡ None)
        (λ r. pair_of (words_from line.now at) ≡ Some (r.0, words_from line.now r.1)) }
{
    let (helper, at) = next_pid(line, at)?;
    let (member, at) = next_pid(line, at)?;
    Some((HelperPair { helper, member }, at))
}

/// Pairs up to the line's end.
fn read_pairs(
    alloc: Global,
    line: &[u8],
    start: usize,
) -> Result<Option<List<HelperPair>>, NoMemory>
    ensures { IfOk result (λ pairs. pairs ≡ pairs_of (words_from line.now start)) }
{
    let mut pairs = List::empty(alloc);
    let mut at = start;
    while !is_end(line, at) {
        let Some((pair, next)) = read_pair(line, at) else {
            return Ok(None);
        };
        pairs.push(pair)?;
        at = next;
    }
    Ok(Some(pairs))
}

/// `REQUESTS HELPER MEMBER ..`
#[tactic(auto, unfolding(crate::specs::Tasks::group_of))]
fn read_group(alloc: Global, line: &[u8], at: usize) -> Result<Option<TaskKind>, NoMemory>
    ensures { IfOk result (λ kind. kind ≡ group_of (words_from line.now at)) }
{
    let Some((requests, at)) = next_count(line, at) else {
        return Ok(None);
    };
    let Some(pairs) = read_pairs(alloc, line, at)? else {
        return Ok(None);
    };
    if are_pairs(pairs.as_slice()) {
        Ok(Some(TaskKind::Group { requests, pairs }))
    } else {
        Ok(None)
    }
}

/// `COORDINATOR MEMBER`
#[tactic(auto, unfolding(crate::specs::Tasks::group_helper_of))]
fn read_group_helper(line: &[u8], at: usize) -> Option<TaskKind>
    ensures { result ≡ group_helper_of (words_from line.now at) }
{
    let (coordinator, at) = next_pid(line, at)?;
    let (member, at) = next_pid(line, at)?;
    if is_end(line, at) {
        Some(TaskKind::GroupHelper {
            coordinator,
            member,
        })
    } else {
        None
    }
}

/// The name of a program and what it is to do.
#[tactic(auto, unfolding(crate::specs::Tasks::kind_of))]
pub fn read_kind(alloc: Global, line: &[u8], at: usize) -> Result<Option<TaskKind>, NoMemory>
    ensures { IfOk result (λ kind. kind ≡ kind_of (words_from line.now at)) }
{
    let Some((word, at)) = next_word(line, at) else {
        return Ok(None);
    };
    if word == b"pageserver".as_slice() {
        Ok(read_server(line, at))
    } else if word == b"pageclient".as_slice() {
        Ok(read_client(line, at))
    } else if word == b"fileserver".as_slice() {
        Ok(read_file_server(line, at))
    } else if word == b"loader".as_slice() {
        Ok(read_loader(line, at))
    } else if word == b"pipeserver".as_slice() {
        Ok(read_pipe_server(line, at))
    } else if word == b"group".as_slice() {
        read_group(alloc, line, at)
    } else if word == b"grouphelper".as_slice() {
        Ok(read_group_helper(line, at))
    } else {
        Ok(None)
    }
}
