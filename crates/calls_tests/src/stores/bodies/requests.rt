//! What the calls on buckets send, a request a line: its subject and its body. `examples/live/buckets` reads these lines, and sends them.

pub(crate) const KEYS: &str =
    r#"$JS.API.STREAM.CREATE.KV_plain {"allow_direct":true,"allow_rollup_hdrs":true,"deny_delete":true,"description":"a bucket","discard":"new","max_msgs_per_subject":1,"name":"KV_plain","num_replicas":1,"retention":"limits","storage":"file","subjects":["$KV.plain.>"]}
$JS.API.STREAM.UPDATE.KV_plain {"allow_direct":true,"allow_rollup_hdrs":true,"deny_delete":true,"description":"a bucket that was changed","discard":"new","max_msgs_per_subject":1,"name":"KV_plain","num_replicas":1,"retention":"limits","storage":"file","subjects":["$KV.plain.>"]}
$JS.API.STREAM.INFO.KV_plain null
$JS.API.STREAM.DELETE.KV_plain {}
"#;

pub(crate) const KEYS_HISTORY: &str =
    r#"$JS.API.STREAM.CREATE.KV_history {"allow_direct":true,"allow_rollup_hdrs":true,"deny_delete":true,"description":"a bucket","discard":"new","max_msgs_per_subject":64,"name":"KV_history","num_replicas":1,"retention":"limits","storage":"file","subjects":["$KV.history.>"]}
$JS.API.STREAM.UPDATE.KV_history {"allow_direct":true,"allow_rollup_hdrs":true,"deny_delete":true,"description":"a bucket that was changed","discard":"new","max_msgs_per_subject":64,"name":"KV_history","num_replicas":1,"retention":"limits","storage":"file","subjects":["$KV.history.>"]}
$JS.API.STREAM.INFO.KV_history null
$JS.API.STREAM.DELETE.KV_history {}
"#;

pub(crate) const KEYS_AGED: &str =
    r#"$JS.API.STREAM.CREATE.KV_aged {"allow_direct":true,"allow_rollup_hdrs":true,"deny_delete":true,"description":"a bucket","discard":"new","max_age":3600000000000,"max_msgs_per_subject":1,"name":"KV_aged","num_replicas":1,"retention":"limits","storage":"file","subjects":["$KV.aged.>"]}
$JS.API.STREAM.UPDATE.KV_aged {"allow_direct":true,"allow_rollup_hdrs":true,"deny_delete":true,"description":"a bucket that was changed","discard":"new","max_age":3600000000000,"max_msgs_per_subject":1,"name":"KV_aged","num_replicas":1,"retention":"limits","storage":"file","subjects":["$KV.aged.>"]}
$JS.API.STREAM.INFO.KV_aged null
$JS.API.STREAM.DELETE.KV_aged {}
"#;

pub(crate) const KEYS_BOUNDS: &str =
    r#"$JS.API.STREAM.CREATE.KV_bounds {"allow_direct":true,"allow_rollup_hdrs":true,"deny_delete":true,"description":"a bucket","discard":"new","max_bytes":1048576,"max_msg_size":1024,"max_msgs_per_subject":1,"name":"KV_bounds","num_replicas":1,"retention":"limits","storage":"file","subjects":["$KV.bounds.>"]}
$JS.API.STREAM.UPDATE.KV_bounds {"allow_direct":true,"allow_rollup_hdrs":true,"deny_delete":true,"description":"a bucket that was changed","discard":"new","max_bytes":1048576,"max_msg_size":1024,"max_msgs_per_subject":1,"name":"KV_bounds","num_replicas":1,"retention":"limits","storage":"file","subjects":["$KV.bounds.>"]}
$JS.API.STREAM.INFO.KV_bounds null
$JS.API.STREAM.DELETE.KV_bounds {}
"#;

pub(crate) const KEYS_MEMORY: &str =
    r#"$JS.API.STREAM.CREATE.KV_memory {"allow_direct":true,"allow_rollup_hdrs":true,"deny_delete":true,"description":"a bucket","discard":"new","max_msgs_per_subject":1,"name":"KV_memory","num_replicas":1,"retention":"limits","storage":"memory","subjects":["$KV.memory.>"]}
$JS.API.STREAM.UPDATE.KV_memory {"allow_direct":true,"allow_rollup_hdrs":true,"deny_delete":true,"description":"a bucket that was changed","discard":"new","max_msgs_per_subject":1,"name":"KV_memory","num_replicas":1,"retention":"limits","storage":"memory","subjects":["$KV.memory.>"]}
$JS.API.STREAM.INFO.KV_memory null
$JS.API.STREAM.DELETE.KV_memory {}
"#;

pub(crate) const KEYS_REPUBLISHED: &str =
    r#"$JS.API.STREAM.CREATE.KV_republished {"allow_direct":true,"allow_rollup_hdrs":true,"deny_delete":true,"description":"a bucket","discard":"new","max_msgs_per_subject":1,"name":"KV_republished","num_replicas":1,"republish":{"dest":"copies.>","headers_only":true,"src":"$KV.republished.>"},"retention":"limits","storage":"file","subjects":["$KV.republished.>"]}
$JS.API.STREAM.UPDATE.KV_republished {"allow_direct":true,"allow_rollup_hdrs":true,"deny_delete":true,"description":"a bucket that was changed","discard":"new","max_msgs_per_subject":1,"name":"KV_republished","num_replicas":1,"republish":{"dest":"copies.>","headers_only":true,"src":"$KV.republished.>"},"retention":"limits","storage":"file","subjects":["$KV.republished.>"]}
$JS.API.STREAM.INFO.KV_republished null
$JS.API.STREAM.DELETE.KV_republished {}
"#;

pub(crate) const KEYS_MIRROR: &str =
    r#"$JS.API.STREAM.CREATE.KV_mirror {"allow_direct":true,"allow_rollup_hdrs":true,"deny_delete":true,"description":"a bucket","discard":"new","max_msgs_per_subject":1,"mirror":{"name":"KV_plain"},"mirror_direct":true,"name":"KV_mirror","num_replicas":1,"retention":"limits","storage":"file"}
$JS.API.STREAM.UPDATE.KV_mirror {"allow_direct":true,"allow_rollup_hdrs":true,"deny_delete":true,"description":"a bucket that was changed","discard":"new","max_msgs_per_subject":1,"mirror":{"name":"KV_plain"},"mirror_direct":true,"name":"KV_mirror","num_replicas":1,"retention":"limits","storage":"file"}
$JS.API.STREAM.INFO.KV_mirror null
$JS.API.STREAM.DELETE.KV_mirror {}
"#;

pub(crate) const KEYS_ELSEWHERE: &str =
    r#"$JS.API.STREAM.CREATE.KV_elsewhere {"allow_direct":true,"allow_rollup_hdrs":true,"deny_delete":true,"description":"a bucket","discard":"new","max_msgs_per_subject":1,"mirror":{"external":{"api":"$JS.hub.API"},"name":"KV_plain"},"mirror_direct":true,"name":"KV_elsewhere","num_replicas":1,"retention":"limits","storage":"file"}
$JS.API.STREAM.UPDATE.KV_elsewhere {"allow_direct":true,"allow_rollup_hdrs":true,"deny_delete":true,"description":"a bucket that was changed","discard":"new","max_msgs_per_subject":1,"mirror":{"external":{"api":"$JS.hub.API"},"name":"KV_plain"},"mirror_direct":true,"name":"KV_elsewhere","num_replicas":1,"retention":"limits","storage":"file"}
$JS.API.STREAM.INFO.KV_elsewhere null
$JS.API.STREAM.DELETE.KV_elsewhere {}
"#;

pub(crate) const KEYS_GATHERED: &str =
    r#"$JS.API.STREAM.CREATE.KV_gathered {"allow_direct":true,"allow_rollup_hdrs":true,"deny_delete":true,"description":"a bucket","discard":"new","max_msgs_per_subject":1,"name":"KV_gathered","num_replicas":1,"retention":"limits","sources":[{"name":"KV_plain"},{"name":"KV_history","opt_start_seq":5}],"storage":"file"}
$JS.API.STREAM.UPDATE.KV_gathered {"allow_direct":true,"allow_rollup_hdrs":true,"deny_delete":true,"description":"a bucket that was changed","discard":"new","max_msgs_per_subject":1,"name":"KV_gathered","num_replicas":1,"retention":"limits","sources":[{"name":"KV_plain"},{"name":"KV_history","opt_start_seq":5}],"storage":"file"}
$JS.API.STREAM.INFO.KV_gathered null
$JS.API.STREAM.DELETE.KV_gathered {}
"#;

pub(crate) const KEYS_PLACED: &str =
    r#"$JS.API.STREAM.CREATE.KV_placed {"allow_direct":true,"allow_rollup_hdrs":true,"deny_delete":true,"description":"a bucket","discard":"new","max_msgs_per_subject":1,"name":"KV_placed","num_replicas":1,"placement":{"cluster":"east","tags":["ssd"]},"retention":"limits","storage":"file","subjects":["$KV.placed.>"]}
$JS.API.STREAM.UPDATE.KV_placed {"allow_direct":true,"allow_rollup_hdrs":true,"deny_delete":true,"description":"a bucket that was changed","discard":"new","max_msgs_per_subject":1,"name":"KV_placed","num_replicas":1,"placement":{"cluster":"east","tags":["ssd"]},"retention":"limits","storage":"file","subjects":["$KV.placed.>"]}
$JS.API.STREAM.INFO.KV_placed null
$JS.API.STREAM.DELETE.KV_placed {}
"#;

pub(crate) const KEYS_COMPRESSED: &str =
    r#"$JS.API.STREAM.CREATE.KV_compressed {"allow_direct":true,"allow_rollup_hdrs":true,"compression":"s2","deny_delete":true,"description":"a bucket","discard":"new","max_msgs_per_subject":1,"name":"KV_compressed","num_replicas":1,"retention":"limits","storage":"file","subjects":["$KV.compressed.>"]}
$JS.API.STREAM.UPDATE.KV_compressed {"allow_direct":true,"allow_rollup_hdrs":true,"compression":"s2","deny_delete":true,"description":"a bucket that was changed","discard":"new","max_msgs_per_subject":1,"name":"KV_compressed","num_replicas":1,"retention":"limits","storage":"file","subjects":["$KV.compressed.>"]}
$JS.API.STREAM.INFO.KV_compressed null
$JS.API.STREAM.DELETE.KV_compressed {}
"#;

pub(crate) const KEYS_MARKED: &str =
    r#"$JS.API.STREAM.CREATE.KV_marked {"allow_direct":true,"allow_msg_ttl":true,"allow_rollup_hdrs":true,"deny_delete":true,"description":"a bucket","discard":"new","max_msgs_per_subject":1,"name":"KV_marked","num_replicas":1,"retention":"limits","storage":"file","subject_delete_marker_ttl":60000000000,"subjects":["$KV.marked.>"]}
$JS.API.STREAM.UPDATE.KV_marked {"allow_direct":true,"allow_msg_ttl":true,"allow_rollup_hdrs":true,"deny_delete":true,"description":"a bucket that was changed","discard":"new","max_msgs_per_subject":1,"name":"KV_marked","num_replicas":1,"retention":"limits","storage":"file","subject_delete_marker_ttl":60000000000,"subjects":["$KV.marked.>"]}
$JS.API.STREAM.INFO.KV_marked null
$JS.API.STREAM.DELETE.KV_marked {}
"#;

pub(crate) const OBJECTS: &str =
    r#"$JS.API.STREAM.CREATE.OBJ_files {"allow_direct":true,"allow_rollup_hdrs":true,"description":"a bucket","discard":"new","name":"OBJ_files","retention":"limits","storage":"file","subjects":["$O.files.C.>","$O.files.M.>"]}
$JS.API.STREAM.INFO.OBJ_files null
$JS.API.STREAM.DELETE.OBJ_files {}
"#;

pub(crate) const OBJECTS_AGED: &str =
    r#"$JS.API.STREAM.CREATE.OBJ_aged {"allow_direct":true,"allow_rollup_hdrs":true,"description":"a bucket","discard":"new","max_age":3600000000000,"name":"OBJ_aged","retention":"limits","storage":"file","subjects":["$O.aged.C.>","$O.aged.M.>"]}
$JS.API.STREAM.INFO.OBJ_aged null
$JS.API.STREAM.DELETE.OBJ_aged {}
"#;

pub(crate) const OBJECTS_BOUNDS: &str =
    r#"$JS.API.STREAM.CREATE.OBJ_bounds {"allow_direct":true,"allow_rollup_hdrs":true,"description":"a bucket","discard":"new","max_bytes":1048576,"name":"OBJ_bounds","num_replicas":1,"retention":"limits","storage":"file","subjects":["$O.bounds.C.>","$O.bounds.M.>"]}
$JS.API.STREAM.INFO.OBJ_bounds null
$JS.API.STREAM.DELETE.OBJ_bounds {}
"#;

pub(crate) const OBJECTS_MEMORY: &str =
    r#"$JS.API.STREAM.CREATE.OBJ_memory {"allow_direct":true,"allow_rollup_hdrs":true,"description":"a bucket","discard":"new","name":"OBJ_memory","retention":"limits","storage":"memory","subjects":["$O.memory.C.>","$O.memory.M.>"]}
$JS.API.STREAM.INFO.OBJ_memory null
$JS.API.STREAM.DELETE.OBJ_memory {}
"#;

pub(crate) const OBJECTS_COMPRESSED: &str =
    r#"$JS.API.STREAM.CREATE.OBJ_compressed {"allow_direct":true,"allow_rollup_hdrs":true,"compression":"s2","description":"a bucket","discard":"new","name":"OBJ_compressed","retention":"limits","storage":"file","subjects":["$O.compressed.C.>","$O.compressed.M.>"]}
$JS.API.STREAM.INFO.OBJ_compressed null
$JS.API.STREAM.DELETE.OBJ_compressed {}
"#;
