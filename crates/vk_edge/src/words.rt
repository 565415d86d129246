//! The words of the real program.

ghost use Rattle.std.specs.Prelude.{◌≡◌, ◌≢◌, ◌⊎◌, drop, Err, IfOk, IfErr};
ghost use Rattle.std.specs.IoError.{error_kind};
ghost use Rattle.std.specs.Vec.Iter.{into_iter_items};
ghost use Rattle.std.specs.declared.io.ErrorKind.TheVariants.{OutOfMemory};

use std::alloc::{AllocError, Allocator};
use std::env::Args;
use std::io::ErrorKind;
use std::rt::Env;
use std::{env, io};

/// What stands behind the first of these arguments.
fn behind_first<A: Allocator>(alloc: A, arguments: Args<A>) -> Result<Vec<String<A>, A>, AllocError>
    ensures { IfOk result (λ words. words.items ≡ drop 1 (into_iter_items arguments)) }
{
    let mut behind = arguments;
    let _name = behind.next();
    let mut words = Vec::new(alloc);
    for word in behind {
        words.push(word)?;
    }
    Ok(words)
}

/// The words behind the first of these arguments, which is the program's own name. `no_memory` comes where memory was wanting for the
/// arguments, or is for the words; `usage` for arguments that can't be read.
pub fn words_behind_name<A: Allocator, T: Copy>(
    alloc: A,
    arguments: io::Result<Args<A>>,
    usage: T,
    no_memory: T,
) -> Result<Vec<String<A>, A>, T>
    ensures words { IfOk arguments (λ all. IfOk result (λ words. words.items ≡ drop 1 (into_iter_items all))) }
    ensures memory { IfOk arguments (λ all. IfErr result (λ s. s ≡ no_memory)) }
    ensures wanting { IfErr arguments (λ error. error_kind error ≡ OutOfMemory → result ≡ Err no_memory) }
    ensures unreadable { IfErr arguments (λ error. error_kind error ≢ OutOfMemory → result ≡ Err usage) }
{
    let arguments = match arguments {
        Ok(arguments) => arguments,
        Err(error) if error.kind() == ErrorKind::OutOfMemory => return Err(no_memory),
        Err(_) => return Err(usage),
    };
    match behind_first(alloc, arguments) {
        Ok(words) => Ok(words),
        Err(_refused) => Err(no_memory),
    }
}

/// The words behind the program's own name: `usage` where they are none that can be read, `no_memory` where memory is wanting for them.
pub fn program_words<R: Env + AllocGlobal, T: Copy>(
    rt: &R,
    usage: T,
    no_memory: T,
) -> Result<Vec<String>, T>
    ensures { IfErr result (λ s. (s ≡ usage) ⊎ (s ≡ no_memory)) }
{
    words_behind_name(rt.alloc(), env::args(rt), usage, no_memory)
}
