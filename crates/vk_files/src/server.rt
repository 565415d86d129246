//! The file server.

ghost use Rattle.std.specs.Prelude.{◌≡◌, ◌<◌, ◌^◌, ℕ, List, [], ◌++◌, length, Option, Some, IfOk, IfErr, option_copied};
ghost use Rattle.vk_base.specs.declared.answer.Answer.{Answer as TheAnswer};
ghost use Rattle.vk_base.specs.declared.pid.Pid.{Pid as ThePid};
ghost use Rattle.vk_io.specs.Causes.{Rose};
ghost use Rattle.vk_program.specs.Tasks.{told_by};
ghost use Rattle.vk_files.specs.Disks.{is_done};
ghost use Rattle.vk_files.specs.declared.disk.Telling.{Telling as TheTelling};
ghost use Rattle.vk_files.specs.Messages.{reply_of};
ghost use Rattle.vk_files.specs.Opened.{IsServerOpened, IsVolumeRefused};
ghost use Rattle.vk_files.specs.Placed.{IsInReach};
ghost use Rattle.vk_files.specs.Servers.{FetchesAhead, answered_write, put_there, stage_call, stored};
ghost use Rattle.vk_files.specs.Tasks.{IsActed, IsAfter, IsServerStep, IsStepBy, asked_of_disk, file_task};
ghost use Rattle.vk_files.specs.declared.serving.FileServing.TheVariants as stages;

use crate::ahead::ReadAhead;
use crate::deciding::{between, call_of, replies_after, turn};
use crate::directory::{entries_in, first_bad};
use crate::disk::Disk;
use crate::entry::{Entry, File};
use crate::limits::BLOCK_BYTES;
use crate::serving::{FileServing, Turn};
use crate::volume::{VolumeFault, VolumeRefusal};
use std::alloc::Global;
use std::marker::Model;
use std::snapshot::Snapshot;
use vk_base::{Answer, Call, List, Pid};
use vk_program::Program;

/// Serves the files of a disk: opens them, reads and writes their pages, and loads them.
#[derive(Drop)]
pub struct FileServer<D: Disk> {
    reading: ReadAhead<D>,
    /// The disk as it was when the server was made.
    first: Snapshot<D>,
    files: List<Entry>,
    requests: u32,
    replies: u32,
    stage: FileServing,
}

impl<D: Disk> Model for FileServer<D> {
    ghost use Rattle.vk_files.specs.Opened.{IsServing};
    ghost use Rattle.vk_files.specs.Tasks.{FileState};

    ghost Value = { FileState };

    ghost view = { λ s. record {
      first = D.state s.first.value;
      requests = s.requests;
      replies = s.replies;
      stage = s.stage;
      reading = s.reading;
    } };

    ghost invariant = { λ s. IsServing (D.state s.first.value) s.files s.stage s.reading };
}

/// A reply that the disk failed.
fn failed(from: Pid) -> FileServing
    ensures { result ≡ stages.Reply from 3 0 0 }
{
    FileServing::Reply {
        from,
        code: 3,
        file: 0,
        number: 0,
    }
}

/// A page that was fetched.
fn stored(
    from: Pid,
    file: File,
    page: u32,
    dest: u32,
    bytes: Option<[u8; BLOCK_BYTES]>,
) -> FileServing
    ensures { result ≡ stored from file page dest bytes }
{
    match bytes {
        None => failed(from),
        Some(bytes) => FileServing::Store {
            from,
            file,
            page,
            dest,
            bytes,
        },
    }
}

/// A block of a file that is loaded.
fn put_there(
    from: Pid,
    file: File,
    at: u32,
    dest: u32,
    bytes: Option<[u8; BLOCK_BYTES]>,
) -> FileServing
    ensures { result ≡ put_there from file at dest bytes }
{
    match bytes {
        None => failed(from),
        Some(bytes) => FileServing::Gather {
            from,
            file,
            at,
            dest,
            bytes,
        },
    }
}

/// A page that was written, or not.
fn answered_write(from: Pid, file: File, page: u32, done: bool) -> FileServing
    ensures { (t : TheTelling) → done ≡ is_done t → result ≡ answered_write from file page t }
{
    if done {
        FileServing::Reply {
            from,
            code: 0,
            file: file.number,
            number: page,
        }
    } else {
        failed(from)
    }
}

/// Asks the disk what this turn wants of it, and tells what is next.
fn act<D: Disk>(reading: &mut ReadAhead<D>, turn: &Turn) -> FileServing
    requires reach { IsInReach (length reading.old.disk.blocks) turn.now }
    requires few { length reading.old.disk.blocks < 2 ^ 32 }
    ensures { IsActed turn.now reading.old reading.new result }
{
    match *turn {
        Turn::Goes { next } => next,
        Turn::GoesAhead { file, page, next } => {
            reading.fetch_ahead(file.start + page);
            next
        }
        Turn::FetchPage {
            from,
            file,
            page,
            dest,
        } => stored(from, file, page, dest, reading.fetch(file.start + page)),
        Turn::FetchPart {
            from,
            file,
            at,
            dest,
        } => put_there(from, file, at, dest, reading.fetch(file.start + at)),
        Turn::WritePage {
            from,
            file,
            page,
            ref bytes,
        } => answered_write(from, file, page, reading.write(file.start + page, bytes)),
    }
}

impl<D: Disk> FileServer<D> {
    /// A server of the files of this disk, which makes so many replies.
    ///
    /// # Errors
    ///
    /// [`VolumeRefusal`] with the disk, where it failed, where its directory is no lawful one, or where memory is wanting.
    pub fn new(alloc: Global, mut disk: D, requests: u32) -> Result<Self, VolumeRefusal<D>>
        ensures opened { IfOk result (λ s. IsServerOpened (D.state disk) requests s) }
        ensures after { IfOk result (λ s. (coming : List TheTelling) → (D.state disk).coming ≡ Some coming → IsAfter s []) }
        ensures refused { IfErr result (λ e. IsVolumeRefused (D.state disk) (D.state e.disk) e.why) }
    {
        let first = Snapshot::of(&disk);
        let count = disk.blocks();
        let mut block = [0; BLOCK_BYTES];
        if disk.read(0, &mut block).is_err() {
            let why = VolumeFault::Failed;
            return Err(VolumeRefusal { disk, why });
        }
        let Ok(files) = entries_in(alloc, &block) else {
            let why = VolumeFault::NoMemory;
            return Err(VolumeRefusal { disk, why });
        };
        if let Some(entry) = first_bad(count, files.as_slice()) {
            let why = VolumeFault::BadVolume { entry };
            return Err(VolumeRefusal { disk, why });
        }
        Ok(FileServer {
            reading: ReadAhead::new(disk),
            first,
            files,
            requests,
            replies: 0,
            stage: between(requests, 0),
        })
    }

    /// Its disk.
    pub fn disk(&self) -> &D
        ensures { D.state result.now ≡ self.now.reading.disk }
    {
        self.reading.disk()
    }

    /// After its last call was answered so.
    fn answer(&mut self, answer: &Answer)
        ensures { IsServerStep answer.now self.old self.new }
    {
        let turn = turn(
            self.files.as_slice(),
            self.requests,
            self.replies,
            &self.stage,
            answer,
        );
        self.replies = replies_after(self.requests, &self.stage, self.replies);
        self.stage = act(&mut self.reading, &turn);
    }

    /// After its last call was answered so, where it made one.
    fn hear(&mut self, last: Option<&Answer>)
        ensures { IsStepBy (option_copied last.entry) self.old self.new }
    {
        if let Some(answer) = last {
            self.answer(answer);
        }
    }

    /// What it calls.
    fn call(&self) -> Option<Call>
        ensures { result ≡ stage_call self.now.stage }
    {
        call_of(&self.stage)
    }
}

impl<D: Disk> Program for FileServer<D> {
    ghost task = { λ s. file_task s.first s.requests };

    ghost is_after = { IsAfter };

    /// Without an answer nothing is asked of the disk, and the call that is due is given once more; so is a reply that the disk failed,
    /// though no fault is counted then.
    fn next(&mut self, last: Option<&Answer>) -> Option<Call>
        ensures task { file_task self.new.first self.new.requests ≡ file_task self.old.first self.old.requests }
        ensures after { (answers : List TheAnswer) → IsAfter self.old answers →
            IsAfter self.new (answers ++ told_by (option_copied last.entry)) }
        ensures call { (answers : List TheAnswer) → IsAfter self.old answers →
            result ≡ file_task self.old.first self.old.requests (answers ++ told_by (option_copied last.entry)) }

        // whatever is foretold, it is the call of one step, by what the disk told now
        ensures step { IsStepBy (option_copied last.entry) self.old self.new }
        ensures calls { result ≡ stage_call self.new.stage }

        // a reply that the disk failed comes only where its count of faults rose now
        ensures failed { (a : TheAnswer) (from : ThePid) → option_copied last.entry ≡ Some a →
            result ≡ Some (Call.Reply (reply_of 3 0 0) from) → Rose self.old.reading.disk.faults self.new.reading.disk.faults }

        // and only where no block was fetched ahead now
        ensures none_ahead { (a : TheAnswer) (from : ThePid) (block : ℕ) → option_copied last.entry ≡ Some a →
            result ≡ Some (Call.Reply (reply_of 3 0 0) from) → asked_of_disk self.old a ≡ FetchesAhead block → ⊥ }
    {
        self.hear(last);
        self.call()
    }
}
