//! The check in its parts, each by its own call: for a caller who wants more of an image than its
//! report.

ghost use Rattle.std.specs.Prelude.{◌≡◌, ◌≤◌, ◌*◌};
ghost use Rattle.ffs.specs.Cited.{IsReady};

use ffs::{
    Args, Counted, Geometry, Image, Output, PathText, Report, Root, RunFault, Super, Workspace,
    check_opening, check_rest, path_of, phase1, phase1b, phase2, phase3, phase4, phase5, summary,
    survey,
};
use std::io;

/// The root directory's inode.
const ROOT: u32 = 2;

/// All phases, one after another, and then the path of the root's entry `a`. Where inode 2 is no
/// directory the check ends in phase 2, and there is no path. The survey is asked for by itself to
/// show that it can be: phase 2 then reads nothing for its own, but takes no directory as calm, so
/// it looks at each.
fn run_phases<I: Image, W: Output>(
    superblock: &Super,
    image: &mut I,
    workspace: &mut Workspace,
    report: &mut Report<'_, W>,
) -> Result<PathText, RunFault>
    requires { IsReady superblock.now.geometry.layout (I.device image.old) workspace.old }
{
    let geometry = &superblock.geometry;
    phase1(geometry, image, workspace, report)?;
    if workspace.has_dups() {
        phase1b(geometry, image, workspace, report)?;
    }
    survey(geometry, image, workspace)?;
    let mut path = PathText::new();
    if let Root::Stop = phase2(geometry, image, workspace, report)? {
        return Ok(path);
    }
    phase3(geometry, image, workspace, report)?;
    phase4(geometry, image, workspace, report)?;
    phase5(superblock, image, workspace, report)?;
    summary(superblock, workspace, report)?;
    if ROOT < geometry.inodes() {
        workspace.forget_windows();
        path_of(geometry, image, workspace, ROOT, Some(b"a"), &mut path)?;
    }
    Ok(path)
}

/// Prints where group 0 has its parts, and what is asked of the fragment 37.
fn print_places(rt: &HostRuntime, geometry: &Geometry) -> io::Result<()> {
    println!(rt;
        "Group 0: {} {} {} {}",
        geometry.cgbase(0),
        geometry.cgstart(0),
        geometry.cgsblock(0),
        geometry.cgdmin(0)
    )?;
    println!(rt;
        "Fragment 37: ok {}, in range {}, reserved {}",
        geometry.ok(37),
        geometry.in_range(37, 1),
        geometry.reserved(37)
    )
}

/// Prints whether the report that the phases make, one by one, is this one, and the path of the
/// root's entry `a`.
fn print_phases<I: Image>(
    rt: &HostRuntime,
    superblock: &Super,
    image: &mut I,
    workspace: &mut Workspace,
    rest: &[u8],
) -> io::Result<()>
    requires { IsReady superblock.now.geometry.layout (I.device image.old) workspace.old }
{
    let mut text = Vec::new(rt.alloc());
    let mut out = Counted::new(&mut text);
    let path = run_phases(superblock, image, workspace, &mut Report::new(&mut out));
    println!(rt;
        "Phase by phase the report is the same: {}",
        text.as_slice() == rest
    )?;
    match path {
        Ok(path) => println!(rt;
            "The path of its entry a is /a: {}",
            path.as_slice() == b"/a".as_slice()
        ),
        Err(fault) => println!(rt; "{fault}"),
    }
}

/// Prints what an accepted volume has, part by part. `rest` is the report after the mount line.
fn print_volume<I: Image>(
    rt: &HostRuntime,
    superblock: &Super,
    image: &mut I,
    rest: &[u8],
) -> io::Result<()>
    requires { superblock.now.geometry.layout.size * superblock.now.geometry.layout.fsize
        ≤ (I.device image.old).size }
{
    print_places(rt, &superblock.geometry)?;
    match Workspace::new(rt.alloc(), &superblock.geometry) {
        Ok(mut workspace) => print_phases(rt, superblock, image, &mut workspace, rest),
        Err(_) => println!(rt; "Memory was refused"),
    }
}

/// Prints how the rest of a check ends that is made by one call.
fn print_rest<I: Image>(
    rt: &HostRuntime,
    superblock: &Super,
    image: &mut I,
    workspace: &mut Workspace,
    rest: &[u8],
) -> io::Result<()>
    requires { IsReady superblock.now.geometry.layout (I.device image.old) workspace.old }
{
    let mut text = Vec::new(rt.alloc());
    let end = check_rest(image, superblock, workspace, &mut Counted::new(&mut text));
    println!(rt;
        "In three calls the report is the same: {}, status {}",
        text.as_slice() == rest,
        end.status()
    )
}

/// Prints how a check ends that is made of an opening, a workspace and the rest.
fn print_end<I: Image>(
    rt: &HostRuntime,
    superblock: &Super,
    image: &mut I,
    rest: &[u8],
) -> io::Result<()>
    requires { superblock.now.geometry.layout.size * superblock.now.geometry.layout.fsize
        ≤ (I.device image.old).size }
{
    match Workspace::new(rt.alloc(), &superblock.geometry) {
        Ok(mut workspace) => print_rest(rt, superblock, image, &mut workspace, rest),
        Err(_) => println!(rt; "Memory was refused"),
    }
}

/// Prints whether phase by phase the report of an image is this one.
///
/// # Errors
/// Standard output failed.
pub fn print_parts<I: Image>(
    rt: &HostRuntime,
    args: &Args<'_>,
    image: &mut I,
    report: &[u8],
) -> io::Result<()> {
    let mut head = Vec::new(rt.alloc());
    match check_opening(image, args, &mut Counted::new(&mut head)) {
        Ok(superblock) => {
            let rest = report.strip_prefix(head.as_slice()).unwrap_or(&[]);
            print_volume(rt, &superblock, image, rest)
        }
        Err(end) => println!(rt; "No volume: status {}", end.status()),
    }
}

/// Prints whether an opening, a workspace and the rest make this report of an image.
///
/// # Errors
/// Standard output failed.
pub fn print_three<I: Image>(
    rt: &HostRuntime,
    args: &Args<'_>,
    image: &mut I,
    report: &[u8],
) -> io::Result<()> {
    let mut head = Vec::new(rt.alloc());
    match check_opening(image, args, &mut Counted::new(&mut head)) {
        Ok(superblock) => {
            let rest = report.strip_prefix(head.as_slice()).unwrap_or(&[]);
            print_end(rt, &superblock, image, rest)
        }
        Err(end) => println!(rt; "No volume: status {}", end.status()),
    }
}
