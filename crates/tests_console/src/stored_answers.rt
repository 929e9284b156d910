//! Stored answers.

/// How a hub is.
pub(crate) const STATUS: &str = "{\"blocks\":{\"left\":183,\"used\":17},\"capacity\":\
    {\"blocks\":200,\"files\":192},\"customers\":2,\"faults\":\
    [\"ACME: no room\",\"table file: gone\"],\"file_bytes\":5832704,\"files\":11,\"intended\":\
    [{\"severity\":\"info\",\"since\":1790649500,\"text\":\"ACME a2: stopped\"}],\
    \"lines\":{\"all\":3,\"up\":1},\"log_bytes\":98304,\"now\":1790650060,\
    \"since\":1790650000,\"version\":\"0.1.0\",\"wrong\":\
    [{\"severity\":\"warning\",\"since\":1790649000,\"text\":\"ACME: no room\"},\
    {\"severity\":\"error\",\"since\":null,\"text\":\"table file: gone\"}]}";

/// How one is with which nothing is wrong.
pub(crate) const RIGHT: &str = "{\"blocks\":{\"left\":183,\"used\":17},\"customers\":2,\"faults\":\
    [],\"file_bytes\":null,\"files\":11,\"lines\":{\"all\":3,\"up\":1},\
    \"since\":1790650000,\"version\":\"0.1.0\"}";

/// Two customers, of which a hub told less of the other.
pub(crate) const CUSTOMERS: &str = "{\"customers\":[{\"arrived\":120,\"blocks\":17,\"files\":\
    {\"held\":1,\"ready\":10,\"refused\":0,\"sending\":1},\"most_files\":128,\
    \"name\":\"ACME\",\"oldest\":1790640000,\
    \"quota\":400,\"turned_away\":{\"files\":1,\"other\":2,\"quota\":3,\"route\":4}},\
    {\"arrived\":0,\"blocks\":0,\"files\":{\"held\":0,\"ready\":0,\"refused\":0,\"sending\":0},\
    \"name\":\"BOLT\",\"quota\":100}],\"next\":null}";

/// A line with streams and messages, whose peer others wait behind, one that is down, and one that
/// isn't served.
pub(crate) const LINES: &str = "{\"customer\":\"ACME\",\"lines\":[{\"from_hub\":[{\"name\":\
    \"LYON.42\",\"records\":40,\"sent\":12,\"state\":\"sending\"},null],\"messages\":3,\
    \"name\":\"a1\",\"node\":\"LYON\",\"role\":\"answers\",\"served\":{\"connected\":1790650000,\
    \"last_end\":\"\",\"naks\":2,\"peer\":\"192.0.2.7:41022\",\"refused\":[{\"address\":\
    \"198.51.100.4\",\"count\":1},{\"address\":\"2001:db8::9\",\"count\":12}],\"repeats\":5,\
    \"site\":\"listens 2703\",\"state\":\"started\",\"up\":1790650003,\"waiting\":\
    [\"203.0.113.9:50112\",\"[2001:db8::9]:40212\"]},\
    \"session\":{\"phase\":\"up\",\"refusals\":0,\"tries\":0,\"turn\":\"hub\"},\
    \"to_hub\":[null,{\"records\":120}]},{\"from_hub\":[{\"state\":\"given up\"}],\"messages\":1,\
    \"name\":\"a2\",\"node\":\"METZ\",\"protocol\":\"tcp\",\
    \"queue\":[{\"node\":\"METZ\",\"since\":1790649950,\"user\":\"PAUL\"},\
    {\"node\":\"PARIS\",\"since\":null,\"user\":\"\"}],\
    \"role\":\"calls\",\"served\":{\"connected\":null,\
    \"counts\":{\"blocks\":{\"in\":31,\"out\":32},\"bytes\":{\"in\":4101,\"out\":4102},\
    \"commands\":7,\"cut_off\":1,\"dropped\":9,\"files\":{\"in\":3,\"out\":4},\
    \"messages\":{\"in\":5,\"out\":6},\"records\":{\"in\":201,\
    \"out\":202},\"returned\":2,\"turned_away\":{\"files\":11,\"other\":14,\"quota\":12,\
    \"route\":13}},\"down\":1790649990,\
    \"last_end\":\"five tries\",\"naks\":0,\"peer\":null,\"refused\":[],\"repeats\":0,\
    \"site\":\"dials 10.0.0.9:2703\",\"stands\":{\"from_hub\":[1790649980],\"to_hub\":\
    [1790649970]},\"state\":\"stopped\",\"state_since\":1790649960,\"up\":null,\"waiting\":[],\
    \"wrong\":{\"severity\":\"warning\",\"since\":1790649990,\"text\":\
    \"the peer answered NAK 2 (the link is active)\"}},\
    \"session\":{\"phase\":\"down\",\"refusals\":1,\"tries\":2,\
    \"turn\":\"nobody\"},\"to_hub\":[{\"state\":\"passed over\"}]},{\"from_hub\":[],\
    \"messages\":null,\"name\":\"a3\",\"node\":\"NICE\",\"role\":\"answers\",\"served\":null,\
    \"session\":null,\"to_hub\":[]}],\"next\":null}";

/// Lines: on which no message waits, and on which one does that isn't served.
pub(crate) const QUEUES: &str = "{\"customer\":\"BOLT\",\"lines\":[{\"messages\":0,\"name\":\
    \"b1\",\"queue\":[],\"served\":{\"counts\":{\"dropped\":0,\"messages\":{\"in\":12,\
    \"out\":34}}}},{\"messages\":1,\"name\":\"b2\",\"queue\":[{\"node\":\"LYON\",\
    \"since\":null,\"user\":\"ANNA\"}],\"served\":null}],\"next\":null}";

/// Files, of which there are more.
pub(crate) const FILES: &str = "{\"customer\":\"ACME\",\"files\":[{\"blocks\":1,\
    \"came\":1790650003,\"destination\":{\"node\":\"METZ\",\"user\":\"PAUL\"},\"kind\":\"OUT\",\
    \"line\":\"a2\",\"name\":\"LYON.42\",\"owner\":{\"node\":\"LYON\",\"user\":\"ANNA\"},\
    \"records\":4,\"state\":\"READY\"}],\"next\":228}";

/// The last of them.
pub(crate) const LAST_FILES: &str = "{\"customer\":\"ACME\",\"files\":[{\"blocks\":12,\
    \"came\":null,\"destination\":{\"node\":\"METZ\",\"user\":\"\"},\"kind\":\"IN\",\
    \"line\":null,\"name\":\"PARIS.32767\",\"owner\":{\"node\":\"PARIS\",\"user\":\"X'c1c2'\"},\
    \"records\":70000,\"state\":\"HELD\"}],\"next\":null}";

/// An order is taken.
pub(crate) const TAKEN: &str = "{\"order\":7}";

/// It was carried out, and answered nothing.
pub(crate) const NO_REPLIES: &str =
    "{\"customer\":null,\"order\":7,\"replies\":[],\"since\":1790650000}";

/// It isn't carried out.
pub(crate) const TOO_LATE: &str = "{\"error\":\"the order isn't carried out: it was too late for \
    that\",\"since\":1790650000}";

/// It was, and that can't be told.
pub(crate) const NO_MEMORY: &str =
    "{\"error\":\"the order was carried out, but there was no memory \
    for its replies\",\"since\":1790650000}";

/// It isn't remembered, by the service that ran before.
pub(crate) const UNKNOWN: &str = "{\"error\":\"no order ctl-483920184756-0 is remembered\",\
    \"since\":1790650000}";

/// Nor by one that began in the same second.
pub(crate) const ANOTHER: &str = "{\"error\":\"no order ctl-483920184756-0 is remembered\",\
    \"since\":1791341203}";

/// What it answered.
pub(crate) const REPLIES: &str = "{\"customer\":\"ACME\",\"order\":7,\"replies\":\
    [\"NJH006 LYON.42 HELD\"]}";

/// No files.
pub(crate) const NO_FILES: &str = "{\"customer\":\"ACME\",\"files\":[],\"next\":null}";

/// Files of several names and owners.
pub(crate) const MANY: &str =
    "{\"customer\":\"ACME\",\"files\":[{\"blocks\":1,\"came\":1790650003,\"destination\":{\"n\
    ode\":\"METZ\",\"user\":\"PAUL\"},\"kind\":\"OUT\",\"line\":\"a2\",\"name\":\"LYON.42\",\
    \"owner\":{\"node\":\"LYON\",\"user\":\"ANNA\"},\"records\":4,\"state\":\"READY\"},{\"bl\
    ocks\":1,\"came\":1790650003,\"destination\":{\"node\":\"METZ\",\"user\":\"PAUL\"},\"kin\
    d\":\"OUT\",\"line\":\"a2\",\"name\":\"LYON.42\",\"owner\":{\"node\":\"LYON\",\"user\":\
    \"ANNA\"},\"records\":4,\"state\":\"HELD\"},{\"blocks\":1,\"came\":1790650003,\"destinat\
    ion\":{\"node\":\"METZ\",\"user\":\"PAUL\"},\"kind\":\"OUT\",\"line\":\"a2\",\"name\":\"\
    LYON.42\",\"owner\":{\"node\":\"LYON\",\"user\":\"PAUL\"},\"records\":4,\"state\":\"READ\
    Y\"},{\"blocks\":1,\"came\":1790650003,\"destination\":{\"node\":\"METZ\",\"user\":\"PAU\
    L\"},\"kind\":\"OUT\",\"line\":\"a2\",\"name\":\"LYON.43\",\"owner\":{\"node\":\"LYON\",\
    \"user\":\"ANNA\"},\"records\":4,\"state\":\"READY\"},{\"blocks\":1,\"came\":1790650003,\
    \"destination\":{\"node\":\"METZ\",\"user\":\"PAUL\"},\"kind\":\"OUT\",\"line\":\"a2\",\
    \"name\":\"LYON.43\",\"owner\":{\"node\":\"LYON\",\"user\":\"ANNA\"},\"records\":4,\"sta\
    te\":\"READY\"},{\"blocks\":1,\"came\":1790650003,\"destination\":{\"node\":\"METZ\",\"u\
    ser\":\"PAUL\"},\"kind\":\"OUT\",\"line\":\"a2\",\"name\":\"LYON.44\",\"owner\":{\"node\
    \":\"LYON\",\"user\":\"ANNA\"},\"records\":4,\"state\":\"READY\"},{\"blocks\":1,\"came\"\
    :1790650003,\"destination\":{\"node\":\"METZ\",\"user\":\"PAUL\"},\"kind\":\"OUT\",\"lin\
    e\":\"a2\",\"name\":\"LYON.45\",\"owner\":{\"node\":\"LYON\",\"user\":\"ANNA\"},\"record\
    s\":4,\"state\":\"READY\"}],\"next\":null}";

/// What an order answers that isn't done.
pub(crate) const NOT_DONE: &str = "{\"customer\":\"ACME\",\"order\":7,\"replies\":\
    [\"NJH012 LYON.45 IS BEING SENT\"]}";

/// Tables of which a customer is given routes, and another waits.
pub(crate) const NEW_ROUTES: &str = "{\"customer\":null,\"order\":7,\"replies\":[\
    \"ACME: new routes\",\"BOLT: its entry waits for a restart\",\
    \"customer BOLT: its quota differs\"],\"since\":5}";

/// Tables that have a fault.
pub(crate) const BAD_TABLES: &str = "{\"customer\":null,\"order\":7,\"replies\":[\
    \"table file: K1 BadToml: line 1: no TOML; nothing changes\"],\"since\":5}";
