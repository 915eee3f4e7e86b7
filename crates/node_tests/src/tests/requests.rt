//! Requests that a node reads when it is stepped: a hop that is taken after one is stopped, a stop
//! token tells of it, and a nested `when_all` passes it on. The sibling that fails requests a stop.
use super::cases::all_complete;

#[test]
fn a_hop_that_is_taken_after_a_request_is_stopped(rt: HostRuntime) {
    let line = "1 error hopped\n";
    let schedule = r#"{"do":"when_all","children":[
                {"do":"stopped_as_error","child":{"do":"schedule","on":"loop"},"error":"hopped"},
                {"do":"just_stopped"}]}"#;
    let before = r#"{"do":"when_all","children":[
                {"do":"stopped_as_error","error":"hopped",
                    "child":{"do":"starts_on","on":"loop","child":{"do":"input"}}},
                {"do":"just_stopped"}]}"#;
    let behind = r#"{"do":"when_all","children":[
                {"do":"stopped_as_error","error":"hopped",
                    "child":{"do":"continues_on","on":"loop","child":{"do":"input"}}},
                {"do":"just_stopped"}]}"#;
    let cases = [(schedule, line), (before, line), (behind, line)];
    all_complete(&rt, rt.alloc(), false, &cases);
}

#[test]
fn a_stop_token_tells_of_a_sibling_s_request(rt: HostRuntime) {
    let root = r#"{"do":"when_all","children":[{"do":"just_stopped"},
                {"do":"then","child":{"do":"read_env","query":"stop"},
                    "job":{"job":"within","lo":0,"hi":0}}]}"#;
    all_complete(&rt, rt.alloc(), false, &[(root, "1 error out-of-range\n")]);
}

#[test]
fn a_nested_when_all_passes_a_request_on(rt: HostRuntime) {
    let root = r#"{"do":"when_all","children":[
                {"do":"when_all","children":[
                        {"do":"stopped_as_error","child":{"do":"delay","turns":50},
                            "error":"roused"},
                        {"do":"input"}]},
                {"do":"starts_on","on":"loop","child":{"do":"just_stopped"}}]}"#;
    all_complete(&rt, rt.alloc(), false, &[(root, "1 error roused\n")]);
}
