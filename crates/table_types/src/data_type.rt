//! The data types that a stick table can store beside a key.

ghost use Rattle.std.specs.Prelude.{◌≡◌, ◌↔◌, IfSome, IsTrue, Some};
ghost use Rattle.table_types.specs.DataTypes.{id_of, name_of, shape_of, is_rate, is_same_type};

/// How the value of a data type is sent.
#[derive(Clone, Copy, Debug, PartialEq, Eq)]
pub enum Shape {
    /// A count below 2^32.
    Count,
    /// A count below 2^64.
    LongCount,
    /// Milliseconds since the current period began, the current count, and the previous count, each below 2^32.
    Rate,
    /// A name, sent through the dictionary. It is not among the values: an update has a field of its own for it.
    Name,
}

/// The data types of stick tables (HAProxy Configuration Manual, stick-table `store`). The numbers are the bits of
/// doc/peers-v2.0.txt, "Table Definition Message", data types; those from 20 up are outside this profile.
#[derive(Clone, Copy, Debug, PartialEq, Eq)]
pub enum DataType {
    /// Numeric id of the server that the key was sent to. Bit 0.
    ServerId,
    /// First general purpose tag. Bit 1.
    Gpt0,
    /// First general purpose counter. Bit 2.
    Gpc0,
    /// Rate of the first general purpose counter. Bit 3.
    Gpc0Rate,
    /// Connections in total. Bit 4.
    ConnCnt,
    /// Rate of connections. Bit 5.
    ConnRate,
    /// Connections currently open. Bit 6.
    ConnCur,
    /// Sessions in total. Bit 7.
    SessCnt,
    /// Rate of sessions. Bit 8.
    SessRate,
    /// HTTP requests in total. Bit 9.
    HttpReqCnt,
    /// Rate of HTTP requests. Bit 10.
    HttpReqRate,
    /// HTTP errors in total. Bit 11.
    HttpErrCnt,
    /// Rate of HTTP errors. Bit 12.
    HttpErrRate,
    /// Bytes received from clients in total. Bit 13.
    BytesInCnt,
    /// Rate of bytes received from clients. Bit 14.
    BytesInRate,
    /// Bytes sent to clients in total. Bit 15.
    BytesOutCnt,
    /// Rate of bytes sent to clients. Bit 16.
    BytesOutRate,
    /// Second general purpose counter. Bit 17.
    Gpc1,
    /// Rate of the second general purpose counter. Bit 18.
    Gpc1Rate,
    /// Name of the server that the key was sent to, sent through the dictionary. Bit 19.
    ServerKey,
}

impl DataType {
    /// All data types, in ascending order of id.
    pub const ALL: [DataType; 20] = [
        DataType::ServerId,
        DataType::Gpt0,
        DataType::Gpc0,
        DataType::Gpc0Rate,
        DataType::ConnCnt,
        DataType::ConnRate,
        DataType::ConnCur,
        DataType::SessCnt,
        DataType::SessRate,
        DataType::HttpReqCnt,
        DataType::HttpReqRate,
        DataType::HttpErrCnt,
        DataType::HttpErrRate,
        DataType::BytesInCnt,
        DataType::BytesInRate,
        DataType::BytesOutCnt,
        DataType::BytesOutRate,
        DataType::Gpc1,
        DataType::Gpc1Rate,
        DataType::ServerKey,
    ];

    /// Returns the data type's id, which is its bit in a definition: 0 to 19.
    pub fn id(self) -> u8
        ensures { result ≡ id_of self }
    {
        self as u8
    }

    /// Returns the data type with the id `id`, or `None` if there is none.
    pub fn from_id(id: u64) -> Option<DataType>
        ensures id { IfSome result (λ data_type. id_of data_type ≡ id) }
        ensures exactly { (data_type : DataType) → id_of data_type ≡ id → result ≡ Some data_type }
    {
        Some(match id {
            0 => DataType::ServerId,
            1 => DataType::Gpt0,
            2 => DataType::Gpc0,
            3 => DataType::Gpc0Rate,
            4 => DataType::ConnCnt,
            5 => DataType::ConnRate,
            6 => DataType::ConnCur,
            7 => DataType::SessCnt,
            8 => DataType::SessRate,
            9 => DataType::HttpReqCnt,
            10 => DataType::HttpReqRate,
            11 => DataType::HttpErrCnt,
            12 => DataType::HttpErrRate,
            13 => DataType::BytesInCnt,
            14 => DataType::BytesInRate,
            15 => DataType::BytesOutCnt,
            16 => DataType::BytesOutRate,
            17 => DataType::Gpc1,
            18 => DataType::Gpc1Rate,
            19 => DataType::ServerKey,
            _ => return None,
        })
    }

    /// Returns whether both are the same data type.
    pub fn is_same(self, other: DataType) -> bool
        ensures same { result ≡ is_same_type self other }
        ensures equal { IsTrue result ↔ (self ≡ other) }
    {
        self.id() == other.id()
    }

    /// Returns the name of the data type in HAProxy's configuration.
    pub fn name(self) -> &'static str
        ensures { result.now ≡ name_of self }
    {
        match self {
            DataType::ServerId => "server_id",
            DataType::Gpt0 => "gpt0",
            DataType::Gpc0 => "gpc0",
            DataType::Gpc0Rate => "gpc0_rate",
            DataType::ConnCnt => "conn_cnt",
            DataType::ConnRate => "conn_rate",
            DataType::ConnCur => "conn_cur",
            DataType::SessCnt => "sess_cnt",
            DataType::SessRate => "sess_rate",
            DataType::HttpReqCnt => "http_req_cnt",
            DataType::HttpReqRate => "http_req_rate",
            DataType::HttpErrCnt => "http_err_cnt",
            DataType::HttpErrRate => "http_err_rate",
            DataType::BytesInCnt => "bytes_in_cnt",
            DataType::BytesInRate => "bytes_in_rate",
            DataType::BytesOutCnt => "bytes_out_cnt",
            DataType::BytesOutRate => "bytes_out_rate",
            DataType::Gpc1 => "gpc1",
            DataType::Gpc1Rate => "gpc1_rate",
            DataType::ServerKey => "server_key",
        }
    }

    /// Returns the data type with this name, or `None` if there is none.
    pub fn from_name(name: &str) -> Option<DataType>
        ensures name { IfSome result (λ data_type. name_of data_type ≡ name.now) }
        ensures exactly { (data_type : DataType) → name_of data_type ≡ name.now → result ≡ Some data_type }
    {
        Some(match name {
            "server_id" => DataType::ServerId,
            "gpt0" => DataType::Gpt0,
            "gpc0" => DataType::Gpc0,
            "gpc0_rate" => DataType::Gpc0Rate,
            "conn_cnt" => DataType::ConnCnt,
            "conn_rate" => DataType::ConnRate,
            "conn_cur" => DataType::ConnCur,
            "sess_cnt" => DataType::SessCnt,
            "sess_rate" => DataType::SessRate,
            "http_req_cnt" => DataType::HttpReqCnt,
            "http_req_rate" => DataType::HttpReqRate,
            "http_err_cnt" => DataType::HttpErrCnt,
            "http_err_rate" => DataType::HttpErrRate,
            "bytes_in_cnt" => DataType::BytesInCnt,
            "bytes_in_rate" => DataType::BytesInRate,
            "bytes_out_cnt" => DataType::BytesOutCnt,
            "bytes_out_rate" => DataType::BytesOutRate,
            "gpc1" => DataType::Gpc1,
            "gpc1_rate" => DataType::Gpc1Rate,
            "server_key" => DataType::ServerKey,
            _ => return None,
        })
    }

    /// Returns how the data type's value is sent.
    pub fn shape(self) -> Shape
        ensures { result ≡ shape_of self }
    {
        match self {
            DataType::Gpc0Rate
            | DataType::ConnRate
            | DataType::SessRate
            | DataType::HttpReqRate
            | DataType::HttpErrRate
            | DataType::BytesInRate
            | DataType::BytesOutRate
            | DataType::Gpc1Rate => Shape::Rate,
            DataType::BytesInCnt | DataType::BytesOutCnt => Shape::LongCount,
            DataType::ServerKey => Shape::Name,
            _ => Shape::Count,
        }
    }

    /// Returns whether the data type is a rate, which has a period.
    pub fn is_rate(self) -> bool
        ensures { result ≡ is_rate self }
    {
        matches!(self.shape(), Shape::Rate)
    }
}
