// The sources of a query, found before its run and taken back after it.
ghost use Rattle.std.specs.Prelude.{◌≡◌, ◌≤◌, ℕ, List, IfOk, IfErr};
ghost use Rattle.std.specs.List.{All};
ghost use Rattle.pipes_edge.specs.Causes.{Rose};
ghost use Rattle.pipes_edge.specs.Outside.{NoneFalls};
ghost use Rattle.pipes_error.specs.Fault.{fault_seen};
ghost use Rattle.pipes_run.specs.Running.{AllFound, FindsNot, IsUnfound};

use pipes_edge::{Files, FindFault};
use pipes_error::{Fault, FileName};
use pipes_query::SourceDecl;
use pipes_tuple::Text;
use std::alloc::Global;

/// Takes the sources back.
pub(crate) fn retire_all<F: Files>(files: &mut F, srcs: Vec<F::Src>)
    requires { All (λ src. F.keeps files.old (F.Src.name src)) srcs.items }
    ensures known { F.known files.new ≡ F.known files.old }
    ensures later { NoneFalls (F.faults files.old) (F.faults files.new) }
    ensures searches { F.failed_searches files.new ≡ F.failed_searches files.old }
    ensures rose { All (λ src. Rose (F.Src.found_at src) (F.Src.faults src)
        → Rose (F.faults files.old (F.Src.name src)) (F.faults files.new (F.Src.name src)))
        srcs.items }
{
    'srcs: for src in srcs {
        files.retire(src);
    }
}

// The fault of a search for the file with this name, which was not found.
fn unfound(file: &Text, why: FindFault) -> Fault<'static>
    ensures { IsUnfound file.now why (fault_seen result) }
{
    let Ok(name) = file.copy() else {
        return Fault::Memory;
    };
    match why {
        FindFault::Missing => Fault::Missing(FileName::OfSource(name)),
        FindFault::Failed => Fault::ReadFile(FileName::OfSource(name)),
        FindFault::Memory => Fault::Memory,
    }
}

/// Finds the sources, one after another in the order of the query; where one isn't found, those
/// before it are taken back.
pub(crate) fn find_all<F: Files>(
    alloc: Global,
    sources: &[SourceDecl],
    files: &mut F,
) -> Result<Vec<F::Src>, Fault<'static>>
    ensures known { F.known files.new ≡ F.known files.old }
    ensures later { NoneFalls (F.faults files.old) (F.faults files.new) }
    ensures searches { F.failed_searches files.old ≤ F.failed_searches files.new }
    ensures found { IfOk result (λ srcs. AllFound F.Src.left F.Src.faults F.Src.found_at F.Src.name
        (F.keeps files.new) (F.known files.old) sources.now srcs.items) }
    ensures refused { IfErr result (λ e. FindsNot (F.known files.old) sources.now
        (F.faults files.old) (F.faults files.new) (F.failed_searches files.old)
        (F.failed_searches files.new) (fault_seen e)) }
{
    let mut srcs = Vec::new(alloc);
    'sources: for source in sources {
        match files.find_src(source.file.as_str()) {
            Ok(src) => {
                if srcs.push(src).is_err() {
                    return Err(Fault::Memory);
                }
            }
            Err(why) => {
                retire_all(files, srcs);
                return Err(unfound(&source.file, why));
            }
        }
    }
    Ok(srcs)
}
