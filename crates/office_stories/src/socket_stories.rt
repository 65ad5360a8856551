//! Clients that meet at a socket.
use crate::sockets::Meeting;
use office_wire::Service;

/// Clients that wait are served in turn.
pub(crate) const IN_TURN: Meeting<'static> = Meeting {
    office: "## at the desk\n",
    clients: r#"sends GET /nothing = 404 Not Found, application/json, 16: {"error":"path"}
sends nothing = nothing
waits POST /acts 56 [{"act":"open-run","day":"2025-01-02","by":"registrar"}] = 200 OK, application/json, 14: [{"number":1}]
sends POST /run/resume = 200 OK, application/json, 17: {"certificate":1}"#,
    is_patient: true,
    most: 4,
    service: Service {
        connections: 4,
        has_failed: false,
        is_poisoned: false,
    },
    reported: "",
};

/// A connection that fails is reported and counted.
pub(crate) const FAILED: Meeting<'static> = Meeting {
    office: "## at the desk\n",
    clients: r#"sends GET /nothing = 404 Not Found, application/json, 16: {"error":"path"}"#,
    is_patient: false,
    most: 3,
    service: Service {
        connections: 3,
        has_failed: true,
        is_poisoned: false,
    },
    reported: "office: socket\noffice: socket\n",
};

/// Serving ends where the desk is poisoned, since a table of certificates takes none.
pub(crate) const POISONED: Meeting<'static> = Meeting {
    office: "## at the desk
## in the tables
DROP TABLE certificates; CREATE TABLE certificates(run INTEGER PRIMARY KEY, body TEXT NOT NULL CHECK (body = '')) STRICT
",
    clients: r#"waits POST /acts 56 [{"act":"open-run","day":"2025-01-02","by":"registrar"}] = 200 OK, application/json, 14: [{"number":1}]
sends POST /run/resume = 503 Service Unavailable, application/json, 12: {"fault":31}"#,
    is_patient: true,
    most: 9,
    service: Service {
        connections: 2,
        has_failed: false,
        is_poisoned: true,
    },
    reported: "",
};
