// The lines that a round prints.
ghost use Rattle.std.specs.Prelude.{◌≡◌, ◌++◌, IfOk, OnOk, codes};
ghost use Rattle.pack_cli.specs.Answers.{fault_text, what_text};
ghost use Rattle.pack_cli.specs.Output.{file_line, file_lines, count_line, built_lines};

use pk_base::Text;
use plan_core::OutFile;
use std::alloc::{AllocError, Global};
use watch_core::{BuildFault, What};

fn what_text(what: What) -> &'static [u8]
    ensures { result.now ≡ what_text what }
{
    match what {
        What::Modules => b"modules",
        What::SourceBytes => b"source bytes",
    }
}

fn fault_text(alloc: Global, fault: &BuildFault) -> Result<Vec<u8>, AllocError>
    ensures { IfOk result (λ text. text.items ≡ fault_text fault.now) }
{
    let mut text = Vec::new(alloc);
    match fault {
        BuildFault::EntryUnresolved(name, request, why) => {
            text.extend_from_slice(b"entry ")?;
            text.extend_from_slice(name.as_slice())?;
            text.extend_from_slice(b": cannot resolve ")?;
            text.extend_from_slice(request.as_slice())?;
            text.extend_from_slice(b": ")?;
            text.extend_from_slice(why.as_slice())?;
        }
        BuildFault::TooLarge(path) => {
            text.extend_from_slice(path.as_slice())?;
            text.extend_from_slice(b": too large")?;
        }
        BuildFault::NotBuilt(path) => {
            text.extend_from_slice(path.as_slice())?;
            text.extend_from_slice(b": not built yet")?;
        }
        BuildFault::TooMany(what) => {
            text.extend_from_slice(b"too many ")?;
            text.extend_from_slice(what_text(*what))?;
        }
    }
    Ok(text)
}

/// The line of a tree that is refused.
pub fn refused_line(alloc: Global, fault: &BuildFault) -> Result<Text, AllocError>
    ensures { IfOk result (λ line. line ≡ codes "refused " ++ fault_text fault.now ++ codes "\n") }
{
    let mut line = Vec::from_slice(alloc, b"refused ")?;
    line.extend_from_slice(fault_text(alloc, fault)?.as_slice())?;
    line.extend_from_slice(b"\n")?;
    Ok(Text::from_vec(line))
}

// Puts the line of a file behind lines.
fn put_file_line(alloc: Global, lines: &mut Vec<u8>, file: &OutFile) -> Result<(), AllocError>
    ensures { OnOk result (lines.new.items ≡ lines.old.items ++ file_line file.now) }
{
    lines.extend_from_slice(b"file ")?;
    lines.extend_from_slice(file.bytes.len().to_string(alloc)?.as_bytes())?;
    lines.extend_from_slice(b" ")?;
    lines.extend_from_slice(file.name.as_slice())?;
    lines.extend_from_slice(b"\n")?;
    Ok(())
}

fn put_file_lines(alloc: Global, lines: &mut Vec<u8>, files: &[OutFile]) -> Result<(), AllocError>
    ensures { OnOk result (lines.new.items ≡ lines.old.items ++ file_lines files.now) }
{
    for file in files {
        put_file_line(alloc, lines, file)?;
    }
    Ok(())
}

// Puts the line of what was built behind lines.
fn put_count_line(
    alloc: Global,
    lines: &mut Vec<u8>,
    modules: usize,
    groups: usize,
    files: usize,
) -> Result<(), AllocError>
    ensures { OnOk result (lines.new.items ≡ lines.old.items ++ count_line modules groups files) }
{
    lines.extend_from_slice(b"built ")?;
    lines.extend_from_slice(modules.to_string(alloc)?.as_bytes())?;
    lines.extend_from_slice(b" modules ")?;
    lines.extend_from_slice(groups.to_string(alloc)?.as_bytes())?;
    lines.extend_from_slice(b" groups ")?;
    lines.extend_from_slice(files.to_string(alloc)?.as_bytes())?;
    lines.extend_from_slice(b" files\n")?;
    Ok(())
}

/// The lines of a tree that is built into these files.
#[tactic(auto, unfolding(crate::specs::Output::built_lines))]
pub fn built_lines(
    alloc: Global,
    files: &[OutFile],
    modules: usize,
    groups: usize,
) -> Result<Text, AllocError>
    ensures { IfOk result (λ lines. lines ≡ built_lines
        (record { files = files.now; modules = modules; groups = groups })) }
{
    let mut lines = Vec::new(alloc);
    put_file_lines(alloc, &mut lines, files)?;
    put_count_line(alloc, &mut lines, modules, groups, files.len())?;
    Ok(Text::from_vec(lines))
}
