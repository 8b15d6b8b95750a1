// Replays the recording that its first argument names; with no argument, the one on standard input.
#![tactic(auto)]

mod player;

use files::Source;

fn main(rt: HostRuntime) {
    let input = files::open_input(&rt);
    let path = input.path;
    let source = input.source;
    match source {
        // Nothing says whether standard input is a file, all of whose bytes are there.
        Source::StandardInput => {
            player::replay(&rt, &mut rt.stdin(), true, b"standard input");
        }
        Source::File { file, length } => {
            let mut file = file;
            player::replay_file(&rt, &mut file, wire::part(&path, 0, length));
        }
        Source::Missing => {}
    }
}
