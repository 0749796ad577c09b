ghost use Rattle.std.specs.Prelude.{◌≡◌, [], Some, None, IfOk};
ghost use Rattle.session_core.specs.declared.reply.Reply.TheVariants.{Executed};
ghost use Rattle.notebook_meaning.specs.Errors.{failure, refused as as_refused};
ghost use Rattle.notebook_engine.specs.Holding.{reply_from};

use plain_data::Text;
use py_machine::PyError;
use py_meaning::CellError;
use py_reader::SyntaxFault;
use session_core::{Failure, Reply};
use std::alloc::{AllocError, Global};

fn raised(alloc: Global, error: PyError) -> Result<Failure, AllocError>
    ensures { IfOk result (λ it. it ≡ failure (CellError.Raised error)) }
{
    let PyError { kind, text } = error;
    Ok(Failure {
        name: Text::new(alloc, kind.name())?,
        text,
    })
}

/// How a cell failed.
fn failure_of(alloc: Global, error: CellError) -> Result<Failure, AllocError>
    ensures { IfOk result (λ it. it ≡ failure error) }
{
    match error {
        CellError::Raised(error) => raised(alloc, error),
        CellError::Feed => Ok(Failure {
            name: Text::new(alloc, "OSError")?,
            text: Text::new(alloc, "feed")?,
        }),
    }
}

/// Why a code has no tree, as a SyntaxError.
fn refused(alloc: Global, fault: SyntaxFault) -> Result<Failure, AllocError>
    ensures { IfOk result (λ it. it ≡ as_refused fault) }
{
    Ok(Failure {
        name: Text::new(alloc, "SyntaxError")?,
        text: fault.text(alloc)?,
    })
}

/// The reply to a code without a tree.
fn refused_reply(
    alloc: Global,
    count: u32,
    silent: bool,
    fault: SyntaxFault,
) -> Result<Reply, AllocError>
    ensures { IfOk result (λ reply. reply ≡ Executed count silent [] None (Some (as_refused fault))) }
{
    let printed = Text::new(alloc, "")?;
    let error = Some(refused(alloc, fault)?);
    Ok(Reply::Executed {
        count,
        silent,
        printed,
        shown: None,
        error,
    })
}

/// The reply to a cell that printed and showed this, and ended with this error, or whose code has no tree for this reason.
pub(crate) fn reply_of(
    alloc: Global,
    count: u32,
    silent: bool,
    fault: Option<SyntaxFault>,
    printed: Text,
    shown: Option<Text>,
    error: Option<CellError>,
) -> Result<Reply, AllocError>
    ensures { IfOk result (λ reply. reply ≡ reply_from count silent fault printed shown error) }
{
    if let Some(fault) = fault {
        return refused_reply(alloc, count, silent, fault);
    }
    let error = match error {
        Some(error) => Some(failure_of(alloc, error)?),
        None => None,
    };
    Ok(Reply::Executed {
        count,
        silent,
        printed,
        shown,
        error,
    })
}
