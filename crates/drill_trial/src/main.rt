// Plays the drills in the files that its arguments name, and prints what each tells behind its name.
#![tactic(auto)]

use play::answer;
use std::alloc::AllocError;
use std::{env, fs};

// Appends the line that names a drill, without the ending of its file.
fn push_name(text: &mut Vec<u8>, file: &str) -> Result<(), AllocError> {
    let name = file.strip_suffix(".drill").unwrap_or(file);
    let heap = *text.allocator();
    let line = format!(in heap; "== {name}\n")?;
    text.extend_from_slice(line.as_bytes())
}

fn main(rt: HostRuntime) -> anyhow::Result<()> {
    let heap = rt.alloc();
    let mut text = Vec::new(heap);
    for file in env::args(&rt)?.skip(1) {
        let input = fs::read(&rt, file.as_str())?;
        push_name(&mut text, file.as_str())?;
        let told = answer(heap, &input)?;
        text.extend_from_slice(&told)?;
    }
    rt.write_all(&text)?;
    Ok(())
}
